// The search that planning is tried against: every cut of the whole cycles of a small site's jobs, and the least energy of all.
// It shares no code with planning below the model.
#![tactic(auto)]

pub mod cuts;
pub mod intervals;
pub mod mixes;
pub mod search;
pub mod table;
