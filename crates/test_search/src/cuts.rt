// All ways to cut the jobs' cycles over their open intervals, one after another.
// Cycles in the intervals stand in one word, eight bits for each interval. A small site has fewer than 256 cycles, so words
// are added without a carry from one interval to the next.
ghost use Rattle.std.specs.Prelude.{◌<◌};

use crate::intervals::Intervals;
use crate::table::{COLUMN, JobColumns, MOST_JOBS};
use std::num::{wrapping_add_u64, wrapping_sub_u64};

// A cut of each job: its shares of the intervals, the interval that starts at its release, and the set of its other open
// intervals.
#[derive(Clone, Copy)]
pub struct Cuts {
    pub shares: [u64; MOST_JOBS],
    pub firsts: [u8; MOST_JOBS],
    pub others: [u8; MOST_JOBS],
}

// The cut that comes next, or that none is left.
#[derive(Clone, Copy)]
pub struct NextCuts {
    pub found: bool,
    pub cuts: Cuts,
}

#[derive(Clone, Copy)]
struct NextCut {
    found: bool,
    shares: u64,
}

// The cut where each job has all its cycles in its first open interval.
pub(crate) fn first_cuts(jobs: JobColumns, intervals: Intervals) -> Cuts {
    let mut shares = [0u64; MOST_JOBS];
    let mut firsts = [0u8; MOST_JOBS];
    let mut others = [0u8; MOST_JOBS];
    let used = jobs.count as usize;
    for j in 0..MOST_JOBS {
        let release = jobs.windows[2 * j];
        let deadline = jobs.windows[2 * j + 1];
        let first = interval_from(intervals, release);
        shares[j] = in_interval(cycles_of(jobs.cycles[j], j, used), first);
        firsts[j] = first;
        others[j] = intervals_inside(intervals, release, deadline);
    }
    Cuts {
        shares,
        firsts,
        others,
    }
}

// A job's cycles. Jobs past the last have none.
fn cycles_of(cycles: u32, job: usize, count: usize) -> u64 {
    if job < count { cycles as u64 } else { 0 }
}

// The interval that starts at a time.
fn interval_from(intervals: Intervals, time: u32) -> u8 {
    for i in 0..COLUMN {
        if intervals.lengths[i] > 0 {
            if intervals.starts[i] as u32 == time {
                return i as u8;
            }
        }
    }
    0
}

// The set of the intervals that start after a release and before a deadline.
fn intervals_inside(intervals: Intervals, release: u32, deadline: u32) -> u8 {
    let mut set = 0u8;
    for i in 0..COLUMN {
        if is_inside(
            intervals.lengths[i],
            intervals.starts[i] as u32,
            release,
            deadline,
        ) {
            set |= 1u8 << i;
        }
    }
    set
}

fn is_inside(length: u8, start: u32, release: u32, deadline: u32) -> bool {
    if length == 0 {
        return false;
    }
    if start <= release {
        return false;
    }
    start < deadline
}

// The next cut of all jobs: the first job that has a next cut takes it, and the jobs before it are back at their first
// cuts.
pub(crate) fn next_cuts(cuts: Cuts) -> NextCuts {
    let mut next = cuts;
    for j in 0..MOST_JOBS {
        let step = next_cut(next.shares[j], next.firsts[j], next.others[j]);
        next.shares[j] = step.shares;
        if step.found {
            return NextCuts {
                found: true,
                cuts: next,
            };
        }
    }
    NextCuts {
        found: false,
        cuts: next,
    }
}

// The next cut of a job: a cycle moves from the first interval to another one. Where the first interval has none left, the
// other one gives all its cycles back, and the one after it is tried.
fn next_cut(shares: u64, first: u8, others: u8) -> NextCut {
    let mut next = shares;
    for i in 0u8..8 {
        if (others >> i) % 2 == 1 {
            if cycles_in(next, first) > 0 {
                return NextCut {
                    found: true,
                    shares: moved(next, 1, first, i),
                };
            }
            next = moved(next, cycles_in(next, i), i, first);
        }
    }
    NextCut {
        found: false,
        shares: next,
    }
}

fn moved(shares: u64, cycles: u64, from: u8, to: u8) -> u64 {
    wrapping_sub_u64(
        wrapping_add_u64(shares, in_interval(cycles, to)),
        in_interval(cycles, from),
    )
}

// So many cycles in one interval.
pub fn in_interval(cycles: u64, interval: u8) -> u64 {
    cycles << (8 * (interval % 8))
}

// The cycles in an interval.
pub(crate) fn cycles_in(shares: u64, interval: u8) -> u64
    ensures { result < 256 }
{
    (shares >> (8 * (interval % 8))) % 256
}
