// Working levels of a level table.
#![tactic(auto)]

mod points;
mod working;

pub use points::PointTable;
pub use working::{read_working_levels, working_levels};
