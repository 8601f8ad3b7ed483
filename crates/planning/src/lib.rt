// Planning: the operation, and inside it the plan that is made.
#![tactic(auto)]

mod making;
mod operation;
mod placing;

pub use operation::{WrittenPlan, plan};
