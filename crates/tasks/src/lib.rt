// The vocabulary of tasks: what a task is, and the limits of their table by name.
// What the words mean is defined in specs/, and the laws on the definitions are proved in proofs/.
#![tactic(auto)]

// A task releases a job at its phase and every period after it. Each job may run up to the task's deadline after its
// release, for the task's number of cycles.
#[derive(Clone, Copy)]
pub struct Task {
    pub phase: u64,
    pub period: u64,
    pub deadline: u64,
    pub cycles: u64,
}

pub const MAX_TASKS: usize = 16;

pub const MAX_MULTIPLE: u64 = 1_000_000;
