// What touches a span of ticks, over plain arrays: jobs, steps of a plan, and the nearest deadline.
#![tactic(auto)]

mod jobs;
mod lists;
mod steps;

pub use jobs::{inside_within, nearest_deadline, open_within};
pub use lists::write_members;
pub use steps::{count_steps, write_steps};
