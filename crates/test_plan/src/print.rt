// Printing what planning and the check answer.
use crate::buffers::Lengths;
use model::Refusal;
use planning::WrittenPlan;
use spare::NoAnswer;
use test_support::buffers::{kept, numbers_kept};
use test_support::show;

pub(crate) fn plan(made: WrittenPlan) {
    show::words(b" plan");
    show::number(made.intervals as u64);
    show::number(made.energy);
}

// Why there is no plan.
pub(crate) fn no_answer(why: NoAnswer) {
    match why {
        NoAnswer::Overfull { start, end, spare } => {
            show::words(b" overfull");
            show::number(start as u64);
            show::number(end as u64);
            show::signed(spare);
        }
        NoAnswer::Refused(own) => show::refused(own),
    }
}

pub(crate) fn checked(answer: Result<u64, Refusal>) {
    show::words(b" check");
    match answer {
        Ok(energy) => show::accepted(energy),
        Err(own) => show::refused(own),
    }
}

// Whether each buffer past what was written is as it was.
pub(crate) fn rest(plan: &[u8], prices: &[u8], shares: &[u32], written: Lengths) {
    let plan_kept = kept(plan, written.plan);
    let prices_kept = kept(prices, written.prices);
    let shares_kept = numbers_kept(shares, written.shares);
    show::rest(plan_kept & prices_kept & shares_kept);
}

pub(crate) fn shares(agree: bool) {
    if agree {
        show::words(b" shares agree");
    } else {
        show::words(b" shares differ");
    }
}

// The shares that are not 0, in cell order: each is a step.
pub(crate) fn steps(shares: &[u32], jobs: usize, count: u32) {
    show::words(b" steps");
    show::number(count as u64);
    for (place, &cycles) in shares.iter().enumerate() {
        if cycles > 0 {
            step(place, jobs, cycles);
        }
    }
}

fn step(place: usize, jobs: usize, cycles: u32) {
    if jobs > 0 {
        show::words(b" step");
        show::number((place / jobs) as u64);
        show::number((place % jobs) as u64);
        show::number(cycles as u64);
    }
}
