// The window test: the earliest overfull window, which is refusal 11.
ghost use Rattle.std.specs.Prelude.{List, ℕ, ◌<◌, ◌≤◌};
ghost use Rattle.model.specs.declared.Job.{Job};
ghost use Rattle.model.specs.Limits.{max_frequency};
ghost use Rattle.windows.specs.WindowTests.{TestArrays, HasReleasedFrom, EndTested, Tested};

use crate::sums::{CycleSum, add_jobs};
use job_sets::{JobSet, SET_WORDS};
use model::{MAX_BOUNDS, MAX_JOBS};

// A window of ticks, its end not with it.
#[derive(Clone, Copy, Debug, PartialEq, Eq)]
pub struct Window {
    pub start: u64,
    pub end: u64,
}

// What the window test found, the earliest overfull window if there is one, and how often it added a job's cycles to a sum.
#[derive(Clone, Copy)]
pub struct WindowTest {
    pub found: Option<Window>,
    pub additions: usize,
}

// What the windows from one start gave: the number of the bound at which the first overfull one ends, if there is one, and how
// often a job's cycles were added.
#[derive(Clone, Copy)]
pub struct EndTest {
    pub end: Option<usize>,
    pub additions: usize,
}

// Tests the windows from each release, the earliest first, until one is overfull. `from` has the jobs released at or after the
// start, so that a start is a release where one of them is open.
pub fn earliest_overfull(
    times: &[u64; MAX_BOUNDS],
    cycles: &[u64; MAX_JOBS],
    sets: &[u64; SET_WORDS],
    intervals: usize,
    top: u64,
) -> WindowTest
    requires by_index { (jobs : List Job) × (bounds : List ℕ) × TestArrays jobs bounds times.now cycles.now sets.now intervals }
    requires top_le_max_frequency { top ≤ max_frequency }
    ensures { (jobs : List Job) (bounds : List ℕ) → TestArrays jobs bounds times.now cycles.now sets.now intervals
        → Tested top jobs result }
{
    let mut from = JobSet::all();
    let mut additions = 0;
    for start in 0..intervals {
        let here = job_sets::set_at(sets, start);
        if !here.both(from).is_empty() {
            let test = overfull_end(times, cycles, sets, intervals, top, from, start);
            additions += test.additions;
            if let Some(end) = test.end {
                let found = Some(Window {
                    start: times[start],
                    end: times[end],
                });
                return WindowTest { found, additions };
            }
        }
        from = from.less(here);
    }
    WindowTest {
        found: None,
        additions,
    }
}

// Moves the end of a window on, interval after interval, and adds the jobs that end there to the sum, until the window is
// overfull. `from` has the jobs released at or after the start.
fn overfull_end(
    times: &[u64; MAX_BOUNDS],
    cycles: &[u64; MAX_JOBS],
    sets: &[u64; SET_WORDS],
    intervals: usize,
    top: u64,
    from: JobSet,
    start: usize,
) -> EndTest
    requires by_index { (jobs : List Job) × (bounds : List ℕ) × TestArrays jobs bounds times.now cycles.now sets.now intervals
        × HasReleasedFrom jobs bounds from start }
    requires top_le_max_frequency { (top ≤ max_frequency) × (start < intervals) }
    ensures { (jobs : List Job) (bounds : List ℕ) → TestArrays jobs bounds times.now cycles.now sets.now intervals
        → HasReleasedFrom jobs bounds from start → EndTested top jobs bounds start result.end result.additions }
{
    let mut sum = CycleSum {
        cycles: 0,
        additions: 0,
    };
    for last in start..intervals {
        let ended = job_sets::leaving(sets, intervals, last).both(from);
        if !ended.is_empty() {
            sum = add_jobs(cycles, ended, sum);
            if (times[last + 1] - times[start]) * top < sum.cycles {
                return EndTest {
                    end: Some(last + 1),
                    additions: sum.additions,
                };
            }
        }
    }
    EndTest {
        end: None,
        additions: sum.additions,
    }
}
