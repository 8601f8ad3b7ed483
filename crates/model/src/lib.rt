// The vocabulary of the code: a level, a job, a site's parameters, and the limits of documents 01 and 02 by name.
// What the words mean is defined in specs/, and the laws on the definitions are proved in proofs/.
#![tactic(auto)]

mod refusal;

pub use refusal::{Fault, Refusal};

// A frequency level of the processor: cycles per tick, and hundredths of a volt. A level table may begin with the idle entry:
// 0, and what idling draws in thousands of power units.
#[derive(Clone, Copy)]
pub struct Level {
    pub frequency: u64,
    pub voltage: u64,
}

// A job may run from its release up to, not including, its deadline, for its number of cycles.
#[derive(Clone, Copy)]
pub struct Job {
    pub release: u64,
    pub deadline: u64,
    pub cycles: u64,
}

// The three numbers that come with each site: the highest running level allowed, counted from 1; the ticks kept free before each
// deadline; and the margin on cycles, in percent.
#[derive(Clone, Copy)]
pub struct Parameters {
    pub highest: u32,
    pub free: u32,
    pub margin: u32,
}

pub const MAX_LEVELS: usize = 8;

pub const MAX_FREQUENCY: u64 = 1_000;

pub const MAX_VOLTAGE: u64 = 500;

pub const MAX_JOBS: usize = 64;

pub const MAX_DEADLINE: u64 = 1_000_000;

pub const MAX_CYCLES: u64 = 1_000_000_000;

pub const MAX_MARKS: usize = 8;

pub const MAX_FREE: u64 = 1_000_000;

pub const MAX_MARGIN: u64 = 100;

// Each job has a release and a deadline, each mark may be a bound too, and neighbouring bounds have an interval between them.
pub const MAX_BOUNDS: usize = 136;

pub const MAX_INTERVALS: usize = 135;

// Idling and the levels.
pub const MAX_POINTS: usize = 9;
