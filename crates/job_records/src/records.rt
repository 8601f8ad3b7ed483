// The jobs as records, and what the check finds of them in one pass over the lent list: which jobs are open in which
// interval (17 and 24), and how many jobs there are before the first whose steps do not add to its cycles (19).
ghost use Rattle.std.specs.Prelude.{◌≡◌, ◌<◌, ◌≤◌, length, take};
ghost use Rattle.model.specs.Limits.{max_jobs};
ghost use Rattle.job_tables.specs.Tables.{jobs_in};
ghost use Rattle.intervals.specs.Times.{SmallBounds};
ghost use Rattle.job_sets.specs.IntervalSets.{set_words};
ghost use Rattle.job_records.specs.SetsHave.{NoJobs};
ghost use Rattle.job_records.specs.TestedJobs.{TestedBelow, JobTested};

use crate::opening::add_open;
use job_sets::SET_WORDS;
use model::{Job, MAX_BOUNDS, MAX_JOBS};

// The first `count` jobs that stand in three arrays, as records.
pub fn job_records(
    releases: &[u64; MAX_JOBS],
    deadlines: &[u64; MAX_JOBS],
    cycles: &[u64; MAX_JOBS],
    count: usize,
) -> [Job; MAX_JOBS]
    requires { count ≤ max_jobs }
    ensures { take count result ≡ jobs_in count releases.now deadlines.now cycles.now }
{
    let none = Job {
        release: 0,
        deadline: 0,
        cycles: 0,
    };
    let mut jobs = [none; MAX_JOBS];
    for j in 0..count {
        jobs[j] = Job {
            release: releases[j],
            deadline: deadlines[j],
            cycles: cycles[j],
        };
    }
    jobs
}

// Lends the first `count` records to the pass, and the sets of the intervals on to it. `sums` are the cycles of each job's
// steps, added.
pub fn lend_jobs<'a, 's>(
    jobs: [Job; MAX_JOBS],
    count: usize,
    times: &'a [u64; MAX_BOUNDS],
    bounds: usize,
    sums: &'a [u64; MAX_JOBS],
    sets: &'s mut [u64; SET_WORDS],
) -> usize
    requires { (count ≤ max_jobs) × SmallBounds bounds times.now × NoJobs sets.old }
    ensures { TestedBelow (take count jobs) count times.now bounds sums.now sets.new result }
{
    test_jobs(&jobs[..count], times, bounds, sums, sets)
}

// Goes through the lent records one after another. The work on each is `test_job`'s.
fn test_jobs<'j, 'a, 's>(
    jobs: &'j [Job],
    times: &'a [u64; MAX_BOUNDS],
    bounds: usize,
    sums: &'a [u64; MAX_JOBS],
    sets: &'s mut [u64; SET_WORDS],
) -> usize
    requires { (length jobs.now ≤ max_jobs) × SmallBounds bounds times.now × NoJobs sets.old }
    ensures { TestedBelow jobs.now (length jobs.now) times.now bounds sums.now sets.new result }
{
    let mut summed = 0;
    for (j, job) in jobs.iter().enumerate() {
        summed = test_job(summed, j, *job, times, bounds, sums, sets);
    }
    summed
}

// What was found of the jobs before job j, with what is found of that job: adds it to the sets of the intervals that it is
// open in, and answers how many jobs there are before the first whose steps do not add to its cycles.
fn test_job<'a>(
    summed: usize,
    j: usize,
    job: Job,
    times: &'a [u64; MAX_BOUNDS],
    bounds: usize,
    sums: &'a [u64; MAX_JOBS],
    sets: &mut [u64; SET_WORDS],
) -> usize
    requires { (j < max_jobs) × SmallBounds bounds times.now × (length sets.old ≡ set_words) }
    ensures { JobTested summed j job times.now bounds sums.now sets.old sets.new result }
{
    add_open(sets, j, job.release, job.deadline, times, bounds);
    if summed != j {
        return summed;
    }
    if sums[j] != job.cycles {
        return summed;
    }
    j + 1
}
