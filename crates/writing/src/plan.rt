// Writing a plan: the steps of all shares that are not 0, in cell order.
ghost use Rattle.std.specs.Prelude.{◌≡◌, ◌++◌, ℕ, ◌+◌, ◌*◌, ◌<◌, ◌≤◌, length, drop};
ghost use Rattle.model.specs.Limits.{max_jobs, max_intervals};
ghost use Rattle.model.specs.Plans.{shares_in};
ghost use Rattle.job_sets.specs.IntervalSets.{set_in};
ghost use Rattle.writing.specs.StepList.{step_of, steps_in, steps_of};
ghost use Rattle.writing.specs.HeldShares.{SharesHeld};
ghost use Rattle.writing.specs.PlanBytes.{encode_plan, with_steps};

use crate::numbers::{put16, put32};
use job_sets::{JobSet, SET_WORDS};
use model::MAX_JOBS;

// Writes the plan of a table of shares at the start of the buffer, and answers the number of its steps. For each interval
// `sets` has the set of the jobs with a share there.
pub fn write_plan(
    shares: &[u32],
    sets: &[u64; SET_WORDS],
    jobs: usize,
    intervals: usize,
    plan: &mut [u8],
) -> usize
    requires jobs_le_max_jobs { (jobs ≤ max_jobs) × (intervals ≤ max_intervals) × (intervals * jobs ≤ length shares.now) }
    requires by_index { (i : ℕ) → i < intervals → SharesHeld jobs (shares_in jobs shares.now i) (set_in sets.now i) }
    requires shares_in_bounds { 4 + 6 * length (steps_of jobs intervals (shares_in jobs shares.now)) ≤ length plan.old }
    ensures value { result ≡ length (steps_of jobs intervals (shares_in jobs shares.now)) }
    ensures plan_after { plan.new ≡ encode_plan intervals (steps_of jobs intervals (shares_in jobs shares.now)) ++ drop (4 + 6 * result) plan.old }
{
    let count = job_sets::count_all(sets, intervals);
    put16(plan, 0, intervals as u64);
    put16(plan, 2, count as u64);
    write_steps(shares, sets, jobs, intervals, count, plan);
    count
}

// Writes the cells and the cycles of all steps of a plan of `count` steps.
fn write_steps(
    shares: &[u32],
    sets: &[u64; SET_WORDS],
    jobs: usize,
    intervals: usize,
    count: usize,
    plan: &mut [u8],
)
    requires jobs_le_max_jobs { (jobs ≤ max_jobs) × (intervals ≤ max_intervals) × (intervals * jobs ≤ length shares.now) }
    requires by_index { (i : ℕ) → i < intervals → SharesHeld jobs (shares_in jobs shares.now i) (set_in sets.now i) }
    requires count_value { (count ≡ length (steps_of jobs intervals (shares_in jobs shares.now))) × (4 + 6 * count ≤ length plan.old) }
    ensures { plan.new ≡ with_steps count 0 (steps_of jobs intervals (shares_in jobs shares.now)) plan.old }
{
    let mut next = 0;
    for interval in 0..intervals {
        let set = job_sets::set_at(sets, interval);
        next = write_interval(shares, set, jobs, interval, count, next, plan);
    }
}

// Writes the steps of one interval, the first of them as step number `first`, and answers the number of the step after them.
// The set has the jobs with a share there.
fn write_interval(
    shares: &[u32],
    set: JobSet,
    jobs: usize,
    interval: usize,
    count: usize,
    first: usize,
    plan: &mut [u8],
) -> usize
    requires jobs_le_max_jobs { (jobs ≤ max_jobs) × (interval < max_intervals) × (interval * jobs + jobs ≤ length shares.now) }
    requires shares_held { SharesHeld jobs (shares_in jobs shares.now interval) set }
    requires interval_bound { (first + length (steps_in jobs (shares_in jobs shares.now) interval) ≤ count) × (4 + 6 * count ≤ length plan.old) }
    ensures value { result ≡ first + length (steps_in jobs (shares_in jobs shares.now) interval) }
    ensures plan_after { plan.new ≡ with_steps count first (steps_in jobs (shares_in jobs shares.now) interval) plan.old }
{
    let mut next = first;
    let mut rest = set;
    while !rest.is_empty() {
        let job = rest.least();
        write_share(shares, jobs, interval, job, count, next, plan);
        next += 1;
        rest = rest.without(job);
    }
    next
}

// Writes a share that is not 0 as step number `next`.
fn write_share(
    shares: &[u32],
    jobs: usize,
    interval: usize,
    job: usize,
    count: usize,
    next: usize,
    plan: &mut [u8],
)
    requires jobs_le_max_jobs { (jobs ≤ max_jobs) × (interval < max_intervals) × (job < jobs) × (interval * jobs + job < length shares.now) }
    requires job_nonzero { 0 < shares_in jobs shares.now interval job }
    requires next_lt_count { (next < count) × (4 + 6 * count ≤ length plan.old) }
    ensures { plan.new ≡ with_steps count next (step_of interval job (shares_in jobs shares.now interval job)) plan.old }
{
    let share = shares[interval * jobs + job];
    put16(plan, 4 + 2 * next, (interval * MAX_JOBS + job) as u64);
    put32(plan, 4 + 2 * count + 4 * next, share as u64);
}
