// A plan's steps, decoded from its bytes: refusal 15.
ghost use Rattle.std.specs.Prelude.{◌≡◌, ◌+◌, ◌*◌, ◌<◌, length};
ghost use Rattle.model.specs.Limits.{max_jobs};
ghost use Rattle.model.specs.Steps.{wrong_plan_length, step_count, step_at, walk};
ghost use Rattle.walking.specs.Walking.{step_answer, number_after, code_step};

use model::{Fault, MAX_JOBS, Refusal};
use reading::{number16, number32};

// A step gives a job some cycles in an interval.
#[derive(Clone, Copy, Debug, PartialEq, Eq)]
pub struct Step {
    pub interval: usize,
    pub job: usize,
    pub cycles: u64,
}

// What stands at a position of a plan, counted from 0: a step, or none past the last one. Any bytes and any position are answered.
pub(crate) fn answer_at(plan: &[u8], position: usize) -> Result<Option<Step>, Refusal>
    ensures { result ≡ step_answer (walk plan.now) position }
{
    if wrong_length(plan) {
        return Err(Fault::PlanLength.at(0));
    }
    if position < step_count(plan) {
        return Ok(Some(decode_step(plan, position)));
    }
    Ok(None)
}

// The step number after a position: one higher after a step. At the end, and in bytes that are no plan, it stays.
pub(crate) fn number_after(plan: &[u8], position: usize) -> usize
    ensures { result ≡ number_after (step_answer (walk plan.now) position) position }
{
    if wrong_length(plan) {
        return position;
    }
    if step_count(plan) <= position {
        return position;
    }
    position + 1
}

// Whether the bytes are under 4 or not 4 + 6 × the number of steps.
pub fn wrong_length(plan: &[u8]) -> bool
    ensures { result ≡ wrong_plan_length plan.now }
{
    if plan.len() < 4 {
        return true;
    }
    plan.len() != 4 + 6 * number16(plan, 2) as usize
}

// How many steps a plan has.
pub fn step_count(plan: &[u8]) -> usize
    requires { length plan.now ≡ 4 + 6 * step_count plan.now }
    ensures { (result ≡ step_count plan.now) × (result < 65536) }
{
    number16(plan, 2) as usize
}

// A step of a plan of the right length. A cell is interval × 64 + job. The number of steps is taken from the length, which a loop over
// the steps has at hand where it would read the count again for each of them.
pub fn decode_step(plan: &[u8], s: usize) -> Step
    requires { (length plan.now ≡ 4 + 6 * step_count plan.now) × (s < step_count plan.now) }
    ensures { (result ≡ code_step (step_at plan.now s)) × (result.interval < 1024) × (result.job < max_jobs) × (result.cycles < 4294967296) }
{
    let cell = number16(plan, 4 + 2 * s) as usize;
    let count = (plan.len() - 4) / 6;
    Step {
        interval: cell / MAX_JOBS,
        job: cell % MAX_JOBS,
        cycles: number32(plan, 4 + 2 * count + 4 * s),
    }
}
