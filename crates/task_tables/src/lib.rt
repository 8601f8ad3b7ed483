// Reading task tables from bytes, and the least common multiple of the periods.
#![tactic(auto)]

mod multiple;
mod task_table;

pub use multiple::multiple_of;
pub use task_table::{read_tasks, task_at};
