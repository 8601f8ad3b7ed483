// A set for each interval, in one array that is lent.
ghost use Rattle.std.specs.Prelude.{◌≡◌, ◌<◌, ◌≤◌, length};
ghost use Rattle.model.specs.Limits.{max_intervals, max_jobs};
ghost use Rattle.model.specs.Sum.{sum};
ghost use Rattle.job_sets.specs.JobSets.{is_member, member_count};
ghost use Rattle.job_sets.specs.IntervalSets.{set_words, set_in, leaving_set, Added, AddedRange, Removed};

use crate::{JobSet, SET_WORDS};

// The set of an interval.
pub fn set_at(sets: &[u64; SET_WORDS], interval: usize) -> JobSet
    requires { interval < max_intervals }
    ensures { result ≡ set_in sets.now interval }
{
    JobSet {
        word: sets[interval],
    }
}

// Whether the set of an interval has a job.
pub fn holds(sets: &[u64; SET_WORDS], interval: usize, job: usize) -> bool
    requires { (interval < max_intervals) × (job < max_jobs) }
    ensures { result ≡ is_member (set_in sets.now interval) job }
{
    set_at(sets, interval).has(job)
}

// Adds a job to the set of an interval, which may have it already.
pub fn add(sets: &mut [u64; SET_WORDS], interval: usize, job: usize)
    requires { (interval < max_intervals) × (job < max_jobs) × (length sets.old ≡ set_words) }
    ensures { Added sets.old sets.new interval job }
{
    let set = set_at(sets, interval).with(job);
    sets[interval] = set.word;
}

// Adds a job to the sets of the intervals from `first` to before `end`, which may have it already.
pub fn add_range(sets: &mut [u64; SET_WORDS], first: usize, end: usize, job: usize)
    requires { (end ≤ max_intervals) × (job < max_jobs) × (length sets.old ≡ set_words) }
    ensures { AddedRange sets.old sets.new first end job }
{
    for i in first..end {
        add(sets, i, job);
    }
}

// Takes a job out of the set of an interval, which need not have it.
pub fn remove(sets: &mut [u64; SET_WORDS], interval: usize, job: usize)
    requires { (interval < max_intervals) × (job < max_jobs) × (length sets.old ≡ set_words) }
    ensures { Removed sets.old sets.new interval job }
{
    let set = set_at(sets, interval).without(job);
    sets[interval] = set.word;
}

// The jobs in the set of an interval that are not in the set of the next one; all of them in the last of `intervals`.
pub fn leaving(sets: &[u64; SET_WORDS], intervals: usize, interval: usize) -> JobSet
    requires { (interval < intervals) × (intervals ≤ max_intervals) }
    ensures { result ≡ leaving_set intervals sets.now interval }
{
    let here = set_at(sets, interval);
    if interval + 1 < intervals {
        return here.less(set_at(sets, interval + 1));
    }
    here
}

// How many members the sets of the first intervals have, all together.
pub fn count_all(sets: &[u64; SET_WORDS], intervals: usize) -> usize
    requires { intervals ≤ max_intervals }
    ensures { result ≡ sum intervals (λ i. member_count (set_in sets.now i)) }
{
    let mut members = 0;
    for i in 0..intervals {
        members += set_at(sets, i).count();
    }
    members
}
