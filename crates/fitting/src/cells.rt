// The steps of a plan, refusals 15 to 18: one after another, by cell. The open pairs and the pairs seen so far are kept as
// one set of jobs for each interval.
ghost use Rattle.std.specs.Prelude.{IsOk, ◌≡◌, ◌+◌, ◌*◌, ◌<◌, ◌≤◌, length};
ghost use Rattle.model.specs.Limits.{max_jobs, max_bounds};
ghost use Rattle.model.specs.Outcome.{by_entry};
ghost use Rattle.model.specs.Refusals.{fault_of};
ghost use Rattle.model.specs.Steps.{step_count};
ghost use Rattle.walking.specs.Walking.{model_step};
ghost use Rattle.fitting.specs.Verdicts.{verdict_of, passed};
ghost use Rattle.job_records.specs.SetsHave.{NoJobs};
ghost use Rattle.fitting.specs.SeenCells.{CellsSeen};
ghost use Rattle.fitting.specs.FirstHalf.{fault_of_step, step_fault_in, stepping_in};

use intervals::interval_count;
use job_sets::{SET_WORDS, add, holds};
use model::{Fault, MAX_JOBS, Refusal};
use reading::number16;
use walking::{Step, decode_step, step_count, wrong_length};

// Checks the steps of a plan, for jobs whose open sets and cycles stand in arrays. Where nothing is wrong it leaves the cells of
// the steps; what a refused plan leaves there is free.
pub fn check_steps(
    sets: &[u64; SET_WORDS],
    cycles: &[u64; MAX_JOBS],
    count: usize,
    bounds: usize,
    plan: &[u8],
    cells: &mut [u64; SET_WORDS],
) -> Result<(), Refusal>
    requires { (count ≤ max_jobs) × (bounds ≤ max_bounds) × NoJobs cells.old }
    ensures value { result ≡ verdict_of (stepping_in sets.now cycles.now count bounds plan.now passed) }
    ensures cells_seen { IsOk result → CellsSeen plan.now cells.new }
{
    if wrong_length(plan) {
        return Err(Fault::PlanLength.at(0));
    }
    if number16(plan, 0) as usize != interval_count(bounds) {
        return Err(Fault::PlanIntervals.at(0));
    }
    mark_steps(sets, cycles, count, bounds, plan, cells)
}

// Goes through the steps one after another, and marks the cell of each.
fn mark_steps(
    sets: &[u64; SET_WORDS],
    cycles: &[u64; MAX_JOBS],
    count: usize,
    bounds: usize,
    plan: &[u8],
    seen: &mut [u64; SET_WORDS],
) -> Result<(), Refusal>
    requires count_le_max_jobs { (count ≤ max_jobs) × (bounds ≤ max_bounds) × (length plan.now ≡ 4 + 6 * step_count plan.now) }
    requires no_jobs { NoJobs seen.old }
    ensures value { result ≡ verdict_of (by_entry (step_count plan.now) (step_fault_in sets.now cycles.now count bounds plan.now) passed) }
    ensures cells_seen { IsOk result → CellsSeen plan.now seen.new }
{
    for s in 0..step_count(plan) {
        let step = decode_step(plan, s);
        if let Some(fault) = step_fault(step, sets, cycles, count, bounds, seen) {
            return Err(fault.at(s as u32));
        }
        add(seen, step.interval, step.job);
    }
    Ok(())
}

// What is at fault at a step, its pair first.
fn step_fault(
    step: Step,
    sets: &[u64; SET_WORDS],
    cycles: &[u64; MAX_JOBS],
    count: usize,
    bounds: usize,
    seen: &[u64; SET_WORDS],
) -> Option<Fault>
    requires { (count ≤ max_jobs) × (bounds ≤ max_bounds) × (step.interval < 1024) }
    ensures { result ≡ fault_of (fault_of_step sets.now cycles.now count bounds seen.now (model_step step)) }
{
    let interval = step.interval;
    let job = step.job;
    if bounds <= interval + 1 {
        return Some(Fault::StepPair);
    }
    if count <= job {
        return Some(Fault::StepPair);
    }
    if !holds(sets, interval, job) {
        return Some(Fault::StepPair);
    }
    if holds(seen, interval, job) {
        return Some(Fault::StepPair);
    }
    if step.cycles < 1 {
        return Some(Fault::StepCycles);
    }
    if step.cycles > cycles[job] {
        return Some(Fault::StepCycles);
    }
    None
}
