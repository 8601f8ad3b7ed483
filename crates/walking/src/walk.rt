// Walking a plan: a reading over its bytes, from which its steps are taken one after another.
ghost use Rattle.std.specs.Prelude.{◌≡◌};
ghost use Rattle.model.specs.Steps.{walk};
ghost use Rattle.walking.specs.Walking.{step_answer};
ghost use Rattle.walking.specs.Readings.{started, taken};

use crate::steps::{Step, answer_at, number_after};
use model::Refusal;

// A plan's bytes, and the number of the step that is taken next.
#[derive(Clone, Copy)]
pub struct StepReading<'a> {
    pub plan: &'a [u8],
    pub next: usize,
}

// What was taken from a reading, a step or none at the end, and the reading after it.
#[derive(Clone, Copy)]
pub struct Taken<'a> {
    pub answer: Result<Option<Step>, Refusal>,
    pub rest: StepReading<'a>,
}

// A reading of any bytes, at step 0. Bytes that are no plan are refused when a step is taken.
pub fn start<'a>(plan: &'a [u8]) -> StepReading<'a>
    ensures { result ≡ started plan.entry }
{
    StepReading { plan, next: 0 }
}

// Takes the next step, and gives the reading after it; or the end, or refusal 15, after which the reading stays.
pub fn next<'a>(reading: StepReading<'a>) -> Taken<'a>
    ensures { result ≡ taken reading.entry }
{
    let answer = answer_at(reading.plan, reading.next);
    let number = number_after(reading.plan, reading.next);
    Taken {
        answer,
        rest: StepReading {
            plan: reading.plan,
            next: number,
        },
    }
}

// Step number `position` of a plan, counted from 0, for callers that keep the number themselves.
pub fn step_at(plan: &[u8], position: usize) -> Result<Option<Step>, Refusal>
    ensures { result ≡ step_answer (walk plan.now) position }
{
    next(StepReading {
        plan,
        next: position,
    })
    .answer
}
