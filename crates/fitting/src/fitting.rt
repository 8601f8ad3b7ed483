// The first half of the check, refusals 15 to 20: the plan fits the jobs.
ghost use Rattle.std.specs.Prelude.{IsOk, ◌≡◌, ◌-◌, ◌≤◌, List, length, replicate};
ghost use Rattle.model.specs.declared.Job.{Job};
ghost use Rattle.model.specs.Limits.{max_frequency, max_jobs, max_intervals};
ghost use Rattle.model.specs.Outcome.{by_entry};
ghost use Rattle.model.specs.Processors.{Processor, top_of};
ghost use Rattle.model.specs.Checking.{fitting};
ghost use Rattle.job_tables.specs.Tables.{jobs_in};
ghost use Rattle.intervals.specs.Times.{SmallBounds};
ghost use Rattle.fitting.specs.Verdicts.{verdict_of, passed};
ghost use Rattle.job_records.specs.SetsHave.{NoJobs};
ghost use Rattle.fitting.specs.SeenCells.{CellsSeen};
ghost use Rattle.job_records.specs.TestedJobs.{TestedBelow, HoldsCycles};
ghost use Rattle.fitting.specs.Sums.{plan_sums, plan_loads};
ghost use Rattle.fitting.specs.FirstHalf.{bounds_in, site_in, load_fault_in, Fitted};

use crate::cells::check_steps;
use crate::sums::add_plan;
use intervals::interval_count;
use job_records::{job_records, lend_jobs};
use job_sets::SET_WORDS;
use model::{Fault, MAX_BOUNDS, MAX_INTERVALS, MAX_JOBS, Refusal};

// Checks a plan against jobs that stand in three arrays, and their bounds. Fills the open sets of the intervals, the loads
// that the plan's steps make and, where the plan passes, the cells of its steps; what a refused plan leaves in those is free. The
// jobs become records, which are lent to the pass over them.
pub fn fit(
    top: u64,
    releases: &[u64; MAX_JOBS],
    deadlines: &[u64; MAX_JOBS],
    cycles: &[u64; MAX_JOBS],
    count: usize,
    times: &[u64; MAX_BOUNDS],
    bounds: usize,
    plan: &[u8],
    sets: &mut [u64; SET_WORDS],
    loads: &mut [u64; MAX_INTERVALS],
    cells: &mut [u64; SET_WORDS],
) -> Result<(), Refusal>
    requires top_le_max_frequency { (top ≤ max_frequency) × (count ≤ max_jobs) × SmallBounds bounds times.now }
    requires no_jobs { NoJobs sets.old × (loads.old ≡ replicate max_intervals 0) × NoJobs cells.old }
    ensures { Fitted top (jobs_in count releases.now deadlines.now cycles.now) times.now bounds plan.now result sets.new loads.new cells.new }
{
    let mut sums = [0u64; MAX_JOBS];
    add_plan(plan, &mut sums, loads);
    let jobs = job_records(releases, deadlines, cycles, count);
    let summed = lend_jobs(jobs, count, times, bounds, &sums, sets);
    check_plan(
        top, sets, cycles, summed, count, times, bounds, plan, loads, cells,
    )
}

// Checks a plan against what was found of the jobs, and their bounds.
fn check_plan(
    top: u64,
    sets: &[u64; SET_WORDS],
    cycles: &[u64; MAX_JOBS],
    summed: usize,
    count: usize,
    times: &[u64; MAX_BOUNDS],
    bounds: usize,
    plan: &[u8],
    loads: &[u64; MAX_INTERVALS],
    cells: &mut [u64; SET_WORDS],
) -> Result<(), Refusal>
    requires { (top ≤ max_frequency) × (count ≤ max_jobs) × SmallBounds bounds times.now × (loads.now ≡ plan_loads plan.now) × NoJobs cells.old }
    ensures value { (processor : Processor) (jobs : List Job) → top_of processor ≡ top → length jobs ≡ count → TestedBelow jobs count times.now bounds (plan_sums plan.now) sets.now summed → HoldsCycles jobs cycles.now → result ≡ verdict_of (fitting (site_in processor jobs times.now bounds) plan.now passed) }
    ensures cells_seen { IsOk result → CellsSeen plan.now cells.new }
{
    check_steps(sets, cycles, count, bounds, plan, cells)?;
    if summed < count {
        return Err(Fault::JobSum.at(summed as u32));
    }
    check_loads(top, times, bounds, loads)
}

// Goes through the intervals one after another: refusal 20.
fn check_loads(
    top: u64,
    times: &[u64; MAX_BOUNDS],
    bounds: usize,
    loads: &[u64; MAX_INTERVALS],
) -> Result<(), Refusal>
    requires { (top ≤ max_frequency) × SmallBounds bounds times.now }
    ensures { result ≡ verdict_of (by_entry (bounds - 1) (load_fault_in top (bounds_in bounds times.now) loads.now) passed) }
{
    for i in 0..interval_count(bounds) {
        if loads[i] > (times[i + 1] - times[i]) * top {
            return Err(Fault::IntervalLoad.at(i as u32));
        }
    }
    Ok(())
}
