// The search for an interval with room.
#![tactic(auto)]

mod reached;
mod room;

pub use reached::Found;
pub use room::search;
