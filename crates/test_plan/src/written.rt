// What planning has written: the check of it, the rest of the buffers, and the shares beside the plan's steps.
use crate::buffers::{Lengths, within_bytes};
use crate::print;
use model::{MAX_INTERVALS, MAX_JOBS, Refusal};
use parameters::as_given;
use planning::WrittenPlan;
use test_support::buffers::within_numbers;
use walking::{Step, step_at};

pub(crate) fn print(
    levels: &[u8],
    jobs: &[u8],
    marks: &[u8],
    plan: &[u8],
    prices: &[u8],
    shares: &[u32],
    made: WrittenPlan,
    word: u8,
) {
    let intervals = made.intervals as usize;
    let steps = made.steps as usize;
    // a job table has 2 + 12n bytes
    let count = jobs.len() / 12;
    let size = product(count, intervals);
    let plan_length = within_bytes(4 + 6 * steps, plan);
    let price_length = within_bytes(2 + 5 * intervals, prices);
    let share_length = within_numbers(size, shares);
    let written = Lengths {
        plan: plan_length,
        prices: price_length,
        shares: share_length,
    };
    check(
        levels,
        jobs,
        marks,
        &plan[..plan_length],
        &prices[..price_length],
    );
    print::rest(plan, prices, shares, written);
    print::shares(agree(&plan[..plan_length], &shares[..share_length], count, steps));
    if word == b's' {
        print::steps(&shares[..share_length], count, made.steps);
    }
    if word != b'f' {
        test_support::written::prices(&prices[..price_length], 2 + 4 * intervals);
    }
}

fn check(levels: &[u8], jobs: &[u8], marks: &[u8], plan: &[u8], prices: &[u8]) {
    let given = as_given(levels);
    print::checked(audit::check(levels, jobs, marks, given, plan, prices));
}

// Whether the plan has as many steps as shares are not 0, and each has the cycles of its share.
fn agree(plan: &[u8], shares: &[u32], jobs: usize, steps: usize) -> bool {
    if count_shares(shares) != steps {
        return false;
    }
    (0..steps).all(|position| agrees(step_at(plan, position), shares, jobs))
}

fn agrees(answer: Result<Option<Step>, Refusal>, shares: &[u32], jobs: usize) -> bool {
    if let Ok(Some(step)) = answer {
        has_share(step, shares, jobs)
    } else {
        false
    }
}

fn has_share(step: Step, shares: &[u32], jobs: usize) -> bool {
    let row = product(jobs, step.interval);
    let job = step.job;
    if shares.len() <= row {
        return false;
    }
    if shares.len() - row <= job {
        return false;
    }
    wide(shares[row + job]) == step.cycles
}

fn wide(share: u32) -> u64 {
    share as u64
}

fn count_shares(shares: &[u32]) -> usize {
    shares.iter().filter(|share| **share > 0).count()
}

// The product of two numbers that a site can have, 0 for larger ones.
fn product(jobs: usize, intervals: usize) -> usize {
    if jobs > MAX_JOBS {
        return 0;
    }
    if intervals > MAX_INTERVALS {
        return 0;
    }
    jobs * intervals
}
