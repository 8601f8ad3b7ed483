// Site parameters: level tables and job tables in plain arrays altered by them, refusals 35 and 36, and the parameters that alter nothing.
#![tactic(auto)]

mod altered_jobs;
mod altered_levels;

pub use altered_jobs::alter_jobs;
pub use altered_levels::{alter_levels, as_given};
