// The operation: from a job table, handover marks, two parameters, a plan and a span to three lists and the nearest deadline.
ghost use Rattle.std.specs.Prelude.{◌≡◌, List, ℕ, ◌^◌, ◌<◌, ◌≤◌, Ok, Err, cond, get_or, ltb};
ghost use Rattle.model.specs.Limits.{max_jobs, max_intervals, max_deadline};
ghost use Rattle.model.specs.Jobs.{ValidJobs};
ghost use Rattle.model.specs.Marks.{ValidMarks, bounds_with};
ghost use Rattle.job_tables.specs.Tables.{jobs_in};
ghost use Rattle.mark_tables.specs.Tables.{marks_in};
ghost use Rattle.spans.specs.TouchedIn.{touched_in, HoldsBounds};
ghost use Rattle.touching.specs.Touching.{where_room, touching_for};
ghost use Rattle.touching.specs.TouchingAnswers.{Answers, TouchingContract};

use fitting::check_steps;
use intervals::{bound_numbers, interval_count, open_sets};
use job_sets::SET_WORDS;
use job_tables::decode_jobs;
use mark_tables::read_marks;
use marked_bounds::marked_bounds;
use model::{Fault, MAX_BOUNDS, MAX_DEADLINE, MAX_JOBS, MAX_MARKS, Refusal};
use parameters::alter_jobs;
use spans::{
    count_steps, inside_within, nearest_deadline, open_within, write_members, write_steps,
};

// The lengths of the three lists that were written, and the nearest deadline, if there is one.
#[derive(Clone, Copy, Debug, PartialEq, Eq)]
pub struct ListLengths {
    pub open_jobs: u32,
    pub inside_jobs: u32,
    pub steps: u32,
    pub deadline: Option<u32>,
}

// Lists the jobs open somewhere in a span, the jobs wholly inside it, and the cells of the plan's steps whose interval shares a
// tick with it. The jobs are those that a site's free ticks and margin make of the table's. Any bytes, any numbers and any lists, of any
// length, are answered.
pub fn touching(
    jobs: &[u8],
    marks: &[u8],
    free: u32,
    margin: u32,
    plan: &[u8],
    start: u32,
    end: u32,
    open_jobs: &mut [u32],
    inside_jobs: &mut [u32],
    steps: &mut [u32],
) -> Result<ListLengths, Refusal>
    ensures { TouchingContract jobs.now marks.now free margin plan.now start end
        (record { open_jobs = open_jobs.old; inside_jobs = inside_jobs.old; steps = steps.old })
        (record { open_jobs = open_jobs.new; inside_jobs = inside_jobs.new; steps = steps.new }) result }
{
    if end <= start {
        return Err(Fault::SpanBounds.at(0));
    }
    if end as u64 > MAX_DEADLINE {
        return Err(Fault::SpanBounds.at(0));
    }
    let mut releases = [0u64; MAX_JOBS];
    let mut deadlines = [0u64; MAX_JOBS];
    let mut cycles = [0u64; MAX_JOBS];
    let count = decode_jobs(jobs, &mut releases, &mut deadlines, &mut cycles)?;
    let table = read_marks(marks)?;
    let altered = alter_jobs(&releases, &mut deadlines, &mut cycles, count, free, margin)?;
    touching_altered(
        &releases,
        &deadlines,
        &cycles,
        altered,
        &table.marks,
        table.count,
        plan,
        start as u64,
        end as u64,
        open_jobs,
        inside_jobs,
        steps,
    )
}

// The operation where the jobs are altered: the bounds of jobs and marks are found.
fn touching_altered<'a>(
    releases: &'a [u64; MAX_JOBS],
    deadlines: &'a [u64; MAX_JOBS],
    cycles: &[u64; MAX_JOBS],
    count: usize,
    ticks: &[u64; MAX_MARKS],
    mark_count: usize,
    plan: &[u8],
    start: u64,
    end: u64,
    open_jobs: &mut [u32],
    inside_jobs: &mut [u32],
    steps: &mut [u32],
) -> Result<ListLengths, Refusal>
    requires { ValidJobs (jobs_in count releases.now deadlines.now cycles.now) × ValidMarks (marks_in mark_count ticks.now) }
    ensures { Answers (touching_for (jobs_in count releases.now deadlines.now cycles.now)
        (bounds_with (marks_in mark_count ticks.now) (jobs_in count releases.now deadlines.now cycles.now)) plan.now start end
        (record { open_jobs = open_jobs.old; inside_jobs = inside_jobs.old; steps = steps.old }))
        (record { open_jobs = open_jobs.old; inside_jobs = inside_jobs.old; steps = steps.old })
        (record { open_jobs = open_jobs.new; inside_jobs = inside_jobs.new; steps = steps.new }) result }
{
    let mut times = [0u64; MAX_BOUNDS];
    let bounds = marked_bounds(releases, deadlines, count, ticks, mark_count, &mut times);
    touching_bounds(
        releases,
        deadlines,
        cycles,
        count,
        &times,
        bounds,
        plan,
        start,
        end,
        open_jobs,
        inside_jobs,
        steps,
    )
}

// The operation where the bounds were found: the plan's steps are checked.
fn touching_bounds(
    releases: &[u64; MAX_JOBS],
    deadlines: &[u64; MAX_JOBS],
    cycles: &[u64; MAX_JOBS],
    count: usize,
    times: &[u64; MAX_BOUNDS],
    bounds: usize,
    plan: &[u8],
    start: u64,
    end: u64,
    open_jobs: &mut [u32],
    inside_jobs: &mut [u32],
    steps: &mut [u32],
) -> Result<ListLengths, Refusal>
    requires valid_jobs { ValidJobs (jobs_in count releases.now deadlines.now cycles.now) }
    requires by_index { (l : List ℕ) × HoldsBounds (jobs_in count releases.now deadlines.now cycles.now) times.now bounds l }
    ensures { (l : List ℕ) → HoldsBounds (jobs_in count releases.now deadlines.now cycles.now) times.now bounds l
        → Answers (touching_for (jobs_in count releases.now deadlines.now cycles.now) l plan.now start end
        (record { open_jobs = open_jobs.old; inside_jobs = inside_jobs.old; steps = steps.old }))
        (record { open_jobs = open_jobs.old; inside_jobs = inside_jobs.old; steps = steps.old })
        (record { open_jobs = open_jobs.new; inside_jobs = inside_jobs.new; steps = steps.new }) result }
{
    let mut first = [0u8; MAX_JOBS];
    let mut last = [0u8; MAX_JOBS];
    let mut sets = [0u64; SET_WORDS];
    bound_numbers(releases, count, times, bounds, &mut first);
    bound_numbers(deadlines, count, times, bounds, &mut last);
    open_sets(&first, &last, count, &mut sets);
    let mut cells = [0u64; SET_WORDS];
    check_steps(&sets, cycles, count, bounds, plan, &mut cells)?;
    list_touched(
        releases,
        deadlines,
        count,
        times,
        interval_count(bounds),
        &cells,
        start,
        end,
        open_jobs,
        inside_jobs,
        steps,
    )
}

// Lists what touches the span, where the plan's steps are sound: each list is compared with the length wanted before any is
// written.
fn list_touched(
    releases: &[u64; MAX_JOBS],
    deadlines: &[u64; MAX_JOBS],
    count: usize,
    times: &[u64; MAX_BOUNDS],
    intervals: usize,
    cells: &[u64; SET_WORDS],
    start: u64,
    end: u64,
    open_jobs: &mut [u32],
    inside_jobs: &mut [u32],
    steps: &mut [u32],
) -> Result<ListLengths, Refusal>
    requires { (count ≤ max_jobs) × (intervals ≤ max_intervals) × ((j : ℕ) → j < count → get_or deadlines.now j 0 ≤ max_deadline) }
    ensures { Answers (where_room
        (record { open_jobs = open_jobs.old; inside_jobs = inside_jobs.old; steps = steps.old })
        (touched_in releases.now deadlines.now count times.now cells.now intervals start end))
        (record { open_jobs = open_jobs.old; inside_jobs = inside_jobs.old; steps = steps.old })
        (record { open_jobs = open_jobs.new; inside_jobs = inside_jobs.new; steps = steps.new }) result }
{
    let opened = open_within(releases, deadlines, count, start, end);
    let inside = inside_within(releases, deadlines, count, start, end);
    let open_wanted = opened.count();
    let inside_wanted = inside.count();
    let steps_wanted = count_steps(times, cells, intervals, start, end);
    room_for(open_wanted, open_jobs.len(), Fault::ListRoom)?;
    room_for(inside_wanted, inside_jobs.len(), Fault::ListRoom)?;
    room_for(steps_wanted, steps.len(), Fault::ListRoom)?;
    write_members(opened, 0, 0, open_jobs);
    write_members(inside, 0, 0, inside_jobs);
    write_steps(times, cells, intervals, start, end, steps);
    Ok(ListLengths {
        open_jobs: open_wanted as u32,
        inside_jobs: inside_wanted as u32,
        steps: steps_wanted as u32,
        deadline: nearest_deadline(deadlines, count, start),
    })
}

// Refuses a list that is shorter than the length wanted.
fn room_for(wanted: usize, length: usize, fault: Fault) -> Result<(), Refusal>
    requires { wanted < 2 ^ 32 }
    ensures { result ≡ cond (ltb length wanted) (Err (record { fault = fault; place = wanted })) (Ok tt) }
{
    if length < wanted {
        return Err(fault.at(wanted as u32));
    }
    Ok(())
}
