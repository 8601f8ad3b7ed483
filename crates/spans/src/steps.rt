// The steps of a plan whose interval shares a tick with a span, from the cells that have a step: one set of jobs for each interval.
ghost use Rattle.std.specs.Prelude.{◌≡◌, ◌*◌, ◌<◌, ◌≤◌, length};
ghost use Rattle.model.specs.Limits.{max_intervals, max_jobs};
ghost use Rattle.spans.specs.SpanAnswers.{listed};
ghost use Rattle.spans.specs.TouchedIn.{set_within, cells_within};

use crate::lists::write_members;
use job_sets::{JobSet, SET_WORDS, set_at};
use model::{MAX_BOUNDS, MAX_JOBS};

// The set of an interval where it shares a tick with the span, otherwise no jobs.
fn set_within(
    times: &[u64; MAX_BOUNDS],
    cells: &[u64; SET_WORDS],
    interval: usize,
    start: u64,
    end: u64,
) -> JobSet
    requires { interval < max_intervals }
    ensures { result ≡ set_within times.now cells.now start end interval }
{
    if end <= times[interval] {
        return JobSet::none();
    }
    if times[interval + 1] <= start {
        return JobSet::none();
    }
    set_at(cells, interval)
}

// How many steps there are.
pub fn count_steps(
    times: &[u64; MAX_BOUNDS],
    cells: &[u64; SET_WORDS],
    intervals: usize,
    start: u64,
    end: u64,
) -> usize
    requires { intervals ≤ max_intervals }
    ensures value { result ≡ length (cells_within times.now cells.now intervals start end) }
    ensures upper_bound { result ≤ max_intervals * max_jobs }
{
    let mut steps = 0;
    for i in 0..intervals {
        steps += set_within(times, cells, i, start, end).count();
    }
    steps
}

// Writes their cells, rising, at the start of the list.
pub fn write_steps(
    times: &[u64; MAX_BOUNDS],
    cells: &[u64; SET_WORDS],
    intervals: usize,
    start: u64,
    end: u64,
    list: &mut [u32],
)
    requires { (intervals ≤ max_intervals) × (length (cells_within times.now cells.now intervals start end) ≤ length list.old) }
    ensures { list.new ≡ listed (cells_within times.now cells.now intervals start end) list.old }
{
    let mut next = 0;
    for i in 0..intervals {
        let set = set_within(times, cells, i, start, end);
        next = write_members(set, i * MAX_JOBS, next, list);
    }
}
