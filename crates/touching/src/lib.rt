// What touches a span of ticks: jobs, steps of a plan, and the nearest deadline.
#![tactic(auto)]

mod operation;

pub use operation::{ListLengths, touching};
