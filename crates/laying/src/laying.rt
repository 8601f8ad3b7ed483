// Laying out the jobs of a round, by release and then task number. For each task the tick of its next release is kept; the
// earliest of these is the next tick at which jobs are released.
ghost use Rattle.std.specs.Prelude.{List, ◌++◌, ◌+◌, ◌<◌, ◌≤◌};
ghost use Rattle.model.specs.declared.Job.{Job};
ghost use Rattle.model.specs.Limits.{max_jobs};
ghost use Rattle.tasks.specs.Tasks.{max_tasks, task_entries};
ghost use Rattle.tasks.specs.Multiples.{max_multiple};
ghost use Rattle.tasks.specs.LaidOut.{jobs_at, lay_out, job_released};
ghost use Rattle.task_tables.specs.TaskBytes.{TasksRead, RoundRead};
ghost use Rattle.laying.specs.NextReleases.{NextReleases, Earliest};
ghost use Rattle.laying.specs.ListedJobs.{JobArrays, ListedJobs, AddedJob, RoundListed};

use model::MAX_JOBS;
use task_tables::task_at;
use tasks::{MAX_TASKS, Task};

// Lists the jobs that are released before the end of the multiple, and answers how many they are; none where they are too many
// for the arrays.
pub fn lay_out(
    bytes: &[u8],
    count: usize,
    multiple: u64,
    releases: &mut [u64; MAX_JOBS],
    deadlines: &mut [u64; MAX_JOBS],
    cycles: &mut [u64; MAX_JOBS],
) -> Option<usize>
    requires round_read { RoundRead bytes.now count multiple }
    requires job_arrays { JobArrays releases.old deadlines.old cycles.old }
    ensures { RoundListed (lay_out (task_entries bytes.now) multiple) result releases.new deadlines.new cycles.new }
{
    let mut next = first_releases(bytes, count);
    let mut tick = earliest(&next, count, multiple);
    let mut listed = 0;
    while tick < multiple {
        listed = release_at(
            bytes, count, multiple, tick, &mut next, listed, releases, deadlines, cycles,
        );
        if listed > MAX_JOBS {
            return None;
        }
        tick = earliest(&next, count, multiple);
    }
    Some(listed)
}

// Each task's first release is at its phase.
fn first_releases(bytes: &[u8], count: usize) -> [u64; MAX_TASKS]
    requires { TasksRead bytes.now count }
    ensures { NextReleases (task_entries bytes.now) 0 result }
{
    let mut next = [0u64; MAX_TASKS];
    for i in 0..count {
        let task = task_at(bytes, count, i);
        next[i] = task.phase;
    }
    next
}

// The earliest of the next releases; the end where none is before it.
fn earliest(next: &[u64; MAX_TASKS], count: usize, end: u64) -> u64
    requires { count ≤ max_tasks }
    ensures { Earliest next.now count end result }
{
    let mut least = end;
    for &release in &next[..count] {
        least = least.min(release);
    }
    least
}

// Lists the jobs that are released at a tick after those that are listed, by task number, and moves the next release of
// their tasks on. Answers how many are listed then.
fn release_at(
    bytes: &[u8],
    count: usize,
    multiple: u64,
    tick: u64,
    next: &mut [u64; MAX_TASKS],
    listed: usize,
    releases: &mut [u64; MAX_JOBS],
    deadlines: &mut [u64; MAX_JOBS],
    cycles: &mut [u64; MAX_JOBS],
) -> usize
    requires round_read { RoundRead bytes.now count multiple }
    requires tick_lt_multiple { (tick < multiple) × (listed ≤ max_jobs) }
    requires next_releases { NextReleases (task_entries bytes.now) tick next.old }
    requires job_arrays { JobArrays releases.old deadlines.old cycles.old }
    ensures next_releases_2 { NextReleases (task_entries bytes.now) (tick + 1) next.new }
    ensures job_arrays_2 { JobArrays releases.new deadlines.new cycles.new }
    ensures listed_jobs { (jobs : List Job) → ListedJobs jobs listed releases.old deadlines.old cycles.old
        → ListedJobs (jobs ++ jobs_at (task_entries bytes.now) tick) result releases.new deadlines.new cycles.new }
{
    let mut jobs = listed;
    for i in 0..count {
        if next[i] == tick {
            let task = task_at(bytes, count, i);
            add_job(task, tick, jobs, releases, deadlines, cycles);
            next[i] = tick + task.period;
            jobs += 1;
        }
    }
    jobs
}

// Puts the job that a task releases at a tick in the arrays as job number `number`, where they have room for it.
fn add_job(
    task: Task,
    tick: u64,
    number: usize,
    releases: &mut [u64; MAX_JOBS],
    deadlines: &mut [u64; MAX_JOBS],
    cycles: &mut [u64; MAX_JOBS],
)
    requires tick_le_max_multiple { (tick ≤ max_multiple) × (task.deadline ≤ max_multiple) }
    requires job_arrays { JobArrays releases.old deadlines.old cycles.old }
    ensures { AddedJob (job_released task tick) number
        releases.old deadlines.old cycles.old
        releases.new deadlines.new cycles.new }
{
    if number < MAX_JOBS {
        releases[number] = tick;
        deadlines[number] = tick + task.deadline;
        cycles[number] = task.cycles;
    }
}
