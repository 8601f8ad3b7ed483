// Reading a site: its levels, its jobs and its handover marks, altered by its parameters: refusals 1 to 10, 31, 32 and 34 to 36. Every
// operation that works on levels and jobs starts here.
#![tactic(auto)]

ghost use Rattle.std.specs.Prelude.{◌≡◌, List, ℕ, ◌<◌, ◌≤◌, get_or, replicate};
ghost use Rattle.model.specs.Limits.{max_jobs, max_bounds, max_marks};
ghost use Rattle.model.specs.Sites.{Given, read_given as given_in, Tables, alter_tables, read_tables as tables_in, site_of, read_site};
ghost use Rattle.mark_tables.specs.Tables.{marks_in};
ghost use Rattle.site.specs.SiteTables.{ValidGiven, HoldsGiven, GivenRead, HoldsTables, TablesRead, HoldsSite, SiteRead};

use job_tables::decode_jobs;
use level_tables::read_levels;
use levels::{PointTable, working_levels};
use mark_tables::read_marks;
use marked_bounds::marked_bounds;
use model::{MAX_BOUNDS, MAX_JOBS, MAX_LEVELS, MAX_MARKS, Parameters, Refusal};
use parameters::{alter_jobs, alter_levels};

// What stands beside the lent arrays once levels and jobs were read, as they are given: the entries of the level table, how many there
// are, and how many jobs.
#[derive(Clone, Copy)]
pub(crate) struct GivenTables {
    pub frequencies: [u64; MAX_LEVELS],
    pub voltages: [u64; MAX_LEVELS],
    pub entries: usize,
    pub jobs: usize,
}

// What stands beside the lent arrays once both were altered: the working points and the top frequency of the processor, and how many
// jobs there are.
#[derive(Clone, Copy)]
pub struct TablePair {
    pub working: PointTable,
    pub top: u64,
    pub jobs: usize,
}

// The same once a site was read, with the number of its bounds.
#[derive(Clone, Copy)]
pub struct SiteTable {
    pub working: PointTable,
    pub top: u64,
    pub jobs: usize,
    pub bounds: usize,
}

// Reads levels and jobs as they are given, the jobs into three arrays of zeros: releases, deadlines and cycles. They are lent, so that
// nothing is copied; where a table is refused they may hold anything. Any bytes are answered.
fn read_given(
    levels: &[u8],
    jobs: &[u8],
    releases: &mut [u64; MAX_JOBS],
    deadlines: &mut [u64; MAX_JOBS],
    cycles: &mut [u64; MAX_JOBS],
) -> Result<GivenTables, Refusal>
    requires { (releases.old ≡ replicate max_jobs 0) × (deadlines.old ≡ replicate max_jobs 0) × (cycles.old ≡ replicate max_jobs 0) }
    ensures { GivenRead (given_in levels.now jobs.now) result releases.new deadlines.new cycles.new }
{
    let table = read_levels(levels)?;
    let count = decode_jobs(jobs, releases, deadlines, cycles)?;
    let frequencies = table.frequencies;
    let voltages = table.voltages;
    Ok(GivenTables {
        frequencies,
        voltages,
        entries: table.count,
        jobs: count,
    })
}

// Levels and jobs altered by the parameters, the jobs in place: 35 for any of the three, then 36 by job.
fn alter_tables(
    given: GivenTables,
    parameters: Parameters,
    releases: &[u64; MAX_JOBS],
    deadlines: &mut [u64; MAX_JOBS],
    cycles: &mut [u64; MAX_JOBS],
) -> Result<TablePair, Refusal>
    requires { (g : Given) × ValidGiven g × HoldsGiven g given releases.now deadlines.old cycles.old }
    ensures { (g : Given) → ValidGiven g → HoldsGiven g given releases.now deadlines.old cycles.old → TablesRead (alter_tables parameters g) result releases.now deadlines.new cycles.new }
{
    let kept = alter_levels(&given.frequencies, given.entries, parameters.highest)?;
    let count = alter_jobs(
        releases,
        deadlines,
        cycles,
        given.jobs,
        parameters.free,
        parameters.margin,
    )?;
    Ok(TablePair {
        working: working_levels(&given.frequencies, &given.voltages, kept),
        top: given.frequencies[kept - 1],
        jobs: count,
    })
}

// Reads levels and jobs as above and alters both.
pub fn read_tables(
    levels: &[u8],
    jobs: &[u8],
    parameters: Parameters,
    releases: &mut [u64; MAX_JOBS],
    deadlines: &mut [u64; MAX_JOBS],
    cycles: &mut [u64; MAX_JOBS],
) -> Result<TablePair, Refusal>
    requires { (releases.old ≡ replicate max_jobs 0) × (deadlines.old ≡ replicate max_jobs 0) × (cycles.old ≡ replicate max_jobs 0) }
    ensures { TablesRead (tables_in levels.now jobs.now parameters) result releases.new deadlines.new cycles.new }
{
    let given = read_given(levels, jobs, releases, deadlines, cycles)?;
    alter_tables(given, parameters, releases, deadlines, cycles)
}

// Reads a site: levels and jobs as they are given, then marks, then both altered, and the times of the bounds of altered jobs and
// marks into a fourth array of zeros.
pub fn read_site(
    levels: &[u8],
    jobs: &[u8],
    marks: &[u8],
    parameters: Parameters,
    releases: &mut [u64; MAX_JOBS],
    deadlines: &mut [u64; MAX_JOBS],
    cycles: &mut [u64; MAX_JOBS],
    times: &mut [u64; MAX_BOUNDS],
) -> Result<SiteTable, Refusal>
    requires { (releases.old ≡ replicate max_jobs 0) × (deadlines.old ≡ replicate max_jobs 0) × (cycles.old ≡ replicate max_jobs 0) × (times.old ≡ replicate max_bounds 0) }
    ensures { SiteRead (read_site levels.now jobs.now marks.now parameters) result releases.new deadlines.new cycles.new times.new }
{
    let given = read_given(levels, jobs, releases, deadlines, cycles)?;
    let table = read_marks(marks)?;
    let tables = alter_tables(given, parameters, releases, deadlines, cycles)?;
    Ok(site_of(
        tables,
        &table.marks,
        table.count,
        releases,
        deadlines,
        times,
    ))
}

// The site of altered levels and jobs, and marks: the bounds are found.
fn site_of<'a>(
    tables: TablePair,
    ticks: &[u64; MAX_MARKS],
    mark_count: usize,
    releases: &'a [u64; MAX_JOBS],
    deadlines: &'a [u64; MAX_JOBS],
    times: &mut [u64; MAX_BOUNDS],
) -> SiteTable
    requires times_value { (times.old ≡ replicate max_bounds 0) × (tables.jobs ≤ max_jobs) × (mark_count ≤ max_marks) }
    requires by_index { (j : ℕ) → j < tables.jobs → get_or releases.now j 0 < get_or deadlines.now j 0 }
    ensures { (t : Tables) (cycles : List ℕ) → HoldsTables t tables releases.now deadlines.now cycles → HoldsSite (site_of t (marks_in mark_count ticks.now)) result releases.now deadlines.now cycles times.new }
{
    let jobs = tables.jobs;
    let bounds = marked_bounds(releases, deadlines, jobs, ticks, mark_count, times);
    SiteTable {
        working: tables.working,
        top: tables.top,
        jobs,
        bounds,
    }
}
