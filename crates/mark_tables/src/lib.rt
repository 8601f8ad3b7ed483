// Reading handover marks from bytes.
#![tactic(auto)]

mod marks;

pub use marks::{MarkTable, read_marks};
