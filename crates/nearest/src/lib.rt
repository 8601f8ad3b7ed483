// The job nearest to trouble: for each job the most cycles that can be added to it alone (document 02, Change 11).
#![tactic(auto)]

mod operation;

pub use operation::nearest;
