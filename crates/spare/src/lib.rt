// The spare of a window of a job table, and what comes of a window that is overfull.
#![tactic(auto)]

mod unmet;
mod window;

pub use unmet::NoAnswer;
pub use window::{spare, window_spare};
