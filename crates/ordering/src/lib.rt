// One spelling of a plan: its steps in cell order.
#![tactic(auto)]

mod operation;
mod ordered;
mod ranking;

pub use operation::order;
