// Prices of intervals: raising them, and the smallest ones that fit shares.
#![tactic(auto)]

mod ranges;
mod smallest;

pub use ranges::{is_below, raise};
pub use smallest::smallest_prices;
