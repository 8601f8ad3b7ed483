// The first half of the check: whether a plan fits the jobs.
#![tactic(auto)]

mod cells;
mod fitting;
mod sums;

pub use cells::check_steps;
pub use fitting::fit;
