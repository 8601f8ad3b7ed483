// Intervals of a job table: bounds, the number of a bound, and open sets.
#![tactic(auto)]

mod opening;
mod times;

pub use opening::open_sets;
pub use times::{bound_number, bound_numbers, bounds_of, insert_time, interval_count};
