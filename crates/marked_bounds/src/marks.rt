// Bounds with handover marks: each mark strictly between the earliest release and the latest deadline is a bound too.
ghost use Rattle.std.specs.Prelude.{◌≡◌, List, ℕ, ◌+◌, ◌<◌, ◌≤◌, length, get_or, take, replicate};
ghost use Rattle.model.specs.Limits.{max_jobs, max_marks, max_bounds};
ghost use Rattle.model.specs.Marks.{insert_mark, insert_marks, bounds_with};
ghost use Rattle.job_tables.specs.Tables.{jobs_in};
ghost use Rattle.mark_tables.specs.Tables.{marks_in};
ghost use Rattle.intervals.specs.Times.{padded, HoldsTimes, RisingTimes};

use intervals::{bounds_of, insert_time, interval_count};
use model::{MAX_BOUNDS, MAX_JOBS, MAX_MARKS};

// Fills an array of zeros with the bounds of a job table and of marks, whatever the jobs' cycles, and answers how many there are.
pub fn marked_bounds<'a>(
    releases: &'a [u64; MAX_JOBS],
    deadlines: &'a [u64; MAX_JOBS],
    count: usize,
    marks: &[u64; MAX_MARKS],
    mark_count: usize,
    times: &mut [u64; MAX_BOUNDS],
) -> usize
    requires count_le_max_jobs { (count ≤ max_jobs) × (mark_count ≤ max_marks) × (times.old ≡ replicate max_bounds 0) }
    requires by_index { (j : ℕ) → j < count → get_or releases.now j 0 < get_or deadlines.now j 0 }
    ensures { (cycles : List ℕ) → HoldsTimes times.new result (bounds_with (marks_in mark_count marks.now) (jobs_in count releases.now deadlines.now cycles)) }
{
    let bounds = bounds_of(releases, deadlines, count, times);
    let first = times[0];
    let last = times[interval_count(bounds)];
    insert_marks(times, bounds, marks, mark_count, first, last)
}

// Puts the marks strictly between two times in their places among the first `count` times, and answers how many there are then.
fn insert_marks(
    times: &mut [u64; MAX_BOUNDS],
    count: usize,
    marks: &[u64; MAX_MARKS],
    mark_count: usize,
    first: u64,
    last: u64,
) -> usize
    requires mark_count_le_max_marks { (mark_count ≤ max_marks) × (count + mark_count ≤ max_bounds) }
    requires times_value { (times.old ≡ padded (take count times.old)) × RisingTimes count times.old }
    ensures { HoldsTimes times.new result (insert_marks first last (marks_in mark_count marks.now) (take count times.old)) }
{
    let mut bounds = count;
    for mark in marks[..mark_count].iter().rev() {
        bounds = insert_mark(times, bounds, *mark, first, last);
    }
    bounds
}

// Puts a mark in its place among the first `count` times where it lies strictly between two times, and answers how many there are
// then.
fn insert_mark(
    times: &mut [u64; MAX_BOUNDS],
    count: usize,
    mark: u64,
    first: u64,
    last: u64,
) -> usize
    requires { (count < max_bounds) × (times.old ≡ padded (take count times.old)) × RisingTimes count times.old }
    ensures { (times.new ≡ padded (insert_mark first last mark (take count times.old))) × (result ≡ length (insert_mark first last mark (take count times.old))) × (result ≤ count + 1) }
{
    if mark <= first {
        return count;
    }
    if mark >= last {
        return count;
    }
    insert_time(times, count, mark)
}
