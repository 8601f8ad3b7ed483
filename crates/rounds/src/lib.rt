// Rounds that repeat: from the bytes of a task table to a job table over the least common multiple of the periods.
#![tactic(auto)]

mod operation;

pub use operation::{LaidOut, rounds};
