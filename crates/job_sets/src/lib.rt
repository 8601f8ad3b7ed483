// Sets of jobs: what a set has is asked and changed here alone, and its word is no other crate's business.
#![tactic(auto)]

mod by_interval;
mod members;

pub use by_interval::{add, add_range, count_all, holds, leaving, remove, set_at};
use model::MAX_INTERVALS;

// The members are the jobs whose bit is set, bit number equal to job number.
#[derive(Clone, Copy)]
pub struct JobSet {
    pub word: u64,
}

// The sets of all intervals stand in one array that can be lent, a word for each.
pub const SET_WORDS: usize = MAX_INTERVALS;
