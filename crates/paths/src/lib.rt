// Moving cycles along the path that a search found.
#![tactic(auto)]

mod path;
mod shares;

pub use path::fill;
pub use shares::put;

// A job's turn to be placed: its number, how many jobs there are, and how many of its cycles are left.
#[derive(Clone, Copy)]
pub struct Turn {
    pub job: usize,
    pub jobs: usize,
    pub left: u64,
}
