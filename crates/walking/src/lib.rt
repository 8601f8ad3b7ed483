// Walking a plan: its steps, decoded from its bytes, and a reading from which they are taken one after another.
#![tactic(auto)]

mod steps;
mod walk;

pub use steps::{Step, decode_step, step_count, wrong_length};
pub use walk::{StepReading, Taken, next, start, step_at};
