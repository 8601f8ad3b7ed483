// The room of each job: the most cycles that can be added to it alone (document 02, Change 11).
#![tactic(auto)]

mod rooms;
mod spares;

pub use rooms::job_rooms;
