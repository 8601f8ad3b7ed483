// Bounds of a job table with handover marks.
#![tactic(auto)]

mod marks;

pub use marks::marked_bounds;
