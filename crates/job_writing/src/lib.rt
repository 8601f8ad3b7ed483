// Writing job tables in bytes.
#![tactic(auto)]

mod jobs;

pub use jobs::write_jobs;
