// Reading job tables from bytes.
#![tactic(auto)]

mod jobs;

pub use jobs::{JobTable, decode_jobs, read_jobs};
