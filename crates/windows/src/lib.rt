// Windows of a job table: the earliest overfull one.
#![tactic(auto)]

mod overfull;
mod sums;

pub use overfull::{Window, WindowTest, earliest_overfull};
