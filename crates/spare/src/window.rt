// The spare of a window: refusal 27, after 35 and 36.
ghost use Rattle.std.specs.Prelude.{◌≡◌, ◌*◌, ◌≤◌};
ghost use Rattle.model.specs.Limits.{max_frequency, max_deadline, max_jobs, max_cycles};
ghost use Rattle.model.specs.Jobs.{ValidJobs};
ghost use Rattle.model.specs.Sum.{only_if};
ghost use Rattle.model.specs.Processors.{top_of};
ghost use Rattle.model.specs.Sites.{Tables};
ghost use Rattle.model.specs.Windows.{is_inside, cycles_inside, spare_of, spare_for, spare as spare_of_bytes};
ghost use Rattle.job_tables.specs.Tables.{jobs_in};
ghost use Rattle.spare.specs.Answers.{spare_answer};

use model::{Fault, MAX_DEADLINE, MAX_JOBS, Parameters, Refusal};
use site::{TablePair, read_tables};

// What the top frequency gives in a window less the cycles of the jobs inside, negative where these are more. Any bytes and any numbers
// are answered.
pub fn spare(
    levels: &[u8],
    jobs: &[u8],
    parameters: Parameters,
    start: u32,
    end: u32,
) -> Result<i64, Refusal>
    ensures { result ≡ spare_answer (spare_of_bytes levels.now jobs.now parameters start end) }
{
    let mut releases = [0u64; MAX_JOBS];
    let mut deadlines = [0u64; MAX_JOBS];
    let mut cycles = [0u64; MAX_JOBS];
    let tables = read_tables(
        levels,
        jobs,
        parameters,
        &mut releases,
        &mut deadlines,
        &mut cycles,
    )?;
    spare_of_tables(
        tables,
        &releases,
        &deadlines,
        &cycles,
        start as u64,
        end as u64,
    )
}

// The spare of a window for levels and jobs that were read.
fn spare_of_tables(
    tables: TablePair,
    releases: &[u64; MAX_JOBS],
    deadlines: &[u64; MAX_JOBS],
    cycles: &[u64; MAX_JOBS],
    start: u64,
    end: u64,
) -> Result<i64, Refusal>
    requires { ValidJobs (jobs_in tables.jobs releases.now deadlines.now cycles.now) × (tables.top ≤ max_frequency) }
    ensures { (t : Tables) → top_of t.processor ≡ tables.top → t.jobs ≡ jobs_in tables.jobs releases.now deadlines.now cycles.now → result ≡ spare_answer (spare_for t start end) }
{
    if end <= start {
        return Err(Fault::WindowBounds.at(0));
    }
    if end > MAX_DEADLINE {
        return Err(Fault::WindowBounds.at(0));
    }
    let count = tables.jobs;
    Ok(window_spare(releases, deadlines, cycles, count, tables.top, start, end))
}

// The spare of a window for jobs that were read.
pub fn window_spare(
    releases: &[u64; MAX_JOBS],
    deadlines: &[u64; MAX_JOBS],
    cycles: &[u64; MAX_JOBS],
    count: usize,
    top: u64,
    start: u64,
    end: u64,
) -> i64
    requires valid_jobs { ValidJobs (jobs_in count releases.now deadlines.now cycles.now) }
    requires top_le_max_frequency { (top ≤ max_frequency) × (start ≤ end) × (end ≤ max_deadline) }
    ensures { result ≡ spare_of top (jobs_in count releases.now deadlines.now cycles.now) start end }
{
    let need = cycles_inside(releases, deadlines, cycles, count, start, end);
    ((end - start) * top) as i64 - need as i64
}

// The cycles of the jobs inside a window.
pub(crate) fn cycles_inside(
    releases: &[u64; MAX_JOBS],
    deadlines: &[u64; MAX_JOBS],
    cycles: &[u64; MAX_JOBS],
    count: usize,
    start: u64,
    end: u64,
) -> u64
    requires { ValidJobs (jobs_in count releases.now deadlines.now cycles.now) }
    ensures { (result ≡ cycles_inside (jobs_in count releases.now deadlines.now cycles.now) start end) × (result ≤ max_jobs * max_cycles) }
{
    let mut sum = 0;
    for j in 0..count {
        sum += cycles_if_inside(releases[j], deadlines[j], cycles[j], start, end);
    }
    sum
}

// A job's cycles where it is inside the window, otherwise 0.
fn cycles_if_inside(release: u64, deadline: u64, cycles: u64, start: u64, end: u64) -> u64
    ensures { (result ≡ only_if (is_inside start end (record { release = release; deadline = deadline; cycles = cycles })) cycles) × (result ≤ cycles) }
{
    if release < start {
        return 0;
    }
    if deadline > end {
        return 0;
    }
    cycles
}
