// Filling the loads that placing found anew, in few steps (document 02, Change 10).
#![tactic(auto)]

mod cells;
mod clearing;
mod crosses;
mod rows;
mod table;

pub use table::refill;
