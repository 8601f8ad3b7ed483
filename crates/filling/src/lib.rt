// Filling the jobs' own windows, in the order of their deadlines.
#![tactic(auto)]

mod window;

pub use window::fill_jobs;
