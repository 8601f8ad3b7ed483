// The intervals that a job is open in: they lie between two of the bounds, which are found by halving.
ghost use Rattle.std.specs.Prelude.{◌≡◌, ◌<◌, length};
ghost use Rattle.model.specs.Limits.{max_jobs};
ghost use Rattle.intervals.specs.Times.{SmallBounds};
ghost use Rattle.job_sets.specs.IntervalSets.{set_words};
ghost use Rattle.job_records.specs.SetsHave.{SetsHave, with_job_in};
ghost use Rattle.job_records.specs.TestedJobs.{EndsBy, opens_in};

use intervals::{bound_number, interval_count};
use job_sets::{SET_WORDS, add_range};
use model::MAX_BOUNDS;

// Adds job j to the sets of the intervals that it is open in.
pub(crate) fn add_open(
    sets: &mut [u64; SET_WORDS],
    j: usize,
    release: u64,
    deadline: u64,
    times: &[u64; MAX_BOUNDS],
    bounds: usize,
)
    requires { (j < max_jobs) × SmallBounds bounds times.now × (length sets.old ≡ set_words) }
    ensures { SetsHave sets.new (with_job_in sets.old j (opens_in release deadline times.now bounds)) }
{
    let first = bound_number(times, bounds, release);
    let end = ends_by(times, bounds, deadline);
    add_range(sets, first, end, j);
}

// How many intervals end by a deadline.
fn ends_by(times: &[u64; MAX_BOUNDS], bounds: usize, deadline: u64) -> usize
    requires { SmallBounds bounds times.now }
    ensures { EndsBy bounds times.now deadline result }
{
    let before = bound_number(times, bounds, deadline);
    if before == bounds {
        return interval_count(before);
    }
    if times[before] == deadline {
        return before;
    }
    interval_count(before)
}
