// What a search has reached: the jobs, and the range of intervals in which they are open.
ghost use Rattle.std.specs.Prelude.{◌≡◌, ℕ, ◌<◌, List, length};
ghost use Rattle.model.specs.Limits.{max_jobs, max_intervals};
ghost use Rattle.searching.specs.Reaching.{state_of, only_job, with_reached, CanScan, Scans};

use job_sets::JobSet;
use model::{MAX_INTERVALS, MAX_JOBS};

// What is reached: `count` jobs, and the intervals from `start` up to, not including, `end`. `unlisted` is the set of the
// other jobs. The target is an interval with room, MAX_INTERVALS where none was found. The jobs stand in an array beside
// this, and in another one each but the first has an interval, its source, where it has a share. Numbers of jobs and of
// intervals fit a byte, and arrays of bytes are cleared sooner.
#[derive(Clone, Copy)]
pub struct Found {
    pub count: usize,
    pub start: usize,
    pub end: usize,
    pub target: usize,
    pub unlisted: JobSet,
}

// Only the job being placed is reached.
pub(crate) fn only(job: usize, first: usize, last: usize) -> Found
    requires { job < max_jobs }
    ensures { (reached source : List ℕ) → state_of result reached source ≡ only_job job first last reached source }
{
    let unlisted = JobSet::all().without(job);
    Found {
        count: 1,
        start: first,
        end: last,
        target: MAX_INTERVALS,
        unlisted,
    }
}

// Lists the jobs that have a share in a reached interval, which are those of a set.
pub(crate) fn scan(
    first: &[u8; MAX_JOBS],
    last: &[u8; MAX_JOBS],
    set: JobSet,
    before: Found,
    interval: usize,
    reached: &mut [u8; MAX_JOBS],
    source: &mut [u8; MAX_JOBS],
) -> Found
    requires { CanScan first.now last.now set (state_of before reached.old source.old) interval }
    ensures { Scans first.now last.now set (state_of before reached.old source.old) interval
        (state_of result reached.new source.new) }
{
    let mut found = before;
    let mut new = set.both(before.unlisted);
    while !new.is_empty() {
        let job = new.least();
        found = reach(
            found,
            job,
            interval,
            first[job] as usize,
            last[job] as usize,
            reached,
            source,
        );
        new = new.without(job);
    }
    found
}

// One job more is reached, by its share in an interval, and the intervals of its window.
fn reach(
    before: Found,
    job: usize,
    interval: usize,
    first: usize,
    last: usize,
    reached: &mut [u8; MAX_JOBS],
    source: &mut [u8; MAX_JOBS],
) -> Found
    requires count_lt_max_jobs { (before.count < max_jobs) × (job < max_jobs) × (interval < max_intervals) }
    requires reached_len { (length reached.old ≡ max_jobs) × (length source.old ≡ max_jobs) }
    ensures { state_of result reached.new source.new
        ≡ with_reached (state_of before reached.old source.old) job interval first last }
{
    let count = before.count;
    reached[count] = job as u8;
    source[count] = interval as u8;
    let unlisted = before.unlisted.without(job);
    Found {
        count: count + 1,
        start: before.start.min(first),
        end: before.end.max(last),
        target: before.target,
        unlisted,
    }
}
