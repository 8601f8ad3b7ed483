// Reading level tables from bytes, with the idle entry and a level's power, and the built-in level tables.
#![tactic(auto)]

mod built_in;
mod idle_entry;
mod levels;

pub use built_in::{first_built_in, second_built_in};
pub use idle_entry::{idle_entries, idle_power};
pub use levels::{LevelTable, power_of, read_levels};
