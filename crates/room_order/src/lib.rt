// Jobs by their room, the smallest first, and the list of them.
#![tactic(auto)]

mod lists;
mod order;

pub use lists::list_rooms;
