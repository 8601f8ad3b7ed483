// The jobs as lent records: in one pass over them the open sets of the intervals, and which jobs' steps add to their cycles.
#![tactic(auto)]

mod opening;
mod records;

pub use records::{job_records, lend_jobs};
