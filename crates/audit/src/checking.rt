// The check of a plan and its price list, from bytes: the first half, and then the second.
ghost use Rattle.std.specs.Prelude.{IsOk, ◌≡◌};
ghost use Rattle.model.specs.Outcome.{answer};
ghost use Rattle.model.specs.Sites.{Site, ValidSite};
ghost use Rattle.model.specs.Checking.{pricing, check_for, check as check_of};
ghost use Rattle.site.specs.SiteTables.{HoldsSite, HoldsSome};
ghost use Rattle.job_records.specs.SetsHave.{NoJobs};
ghost use Rattle.fitting.specs.SeenCells.{CellsSeen};
ghost use Rattle.audit.specs.Answers.{check_answer};
ghost use Rattle.audit.specs.Halves.{FittedSite};

use crate::first_half::fit_site;
use job_sets::SET_WORDS;
use model::{MAX_BOUNDS, MAX_INTERVALS, MAX_JOBS, Parameters, Refusal};
use pricing::price;
use site::{SiteTable, read_site};

// Checks a plan and its price list against a level table, a job table and handover marks, altered by a site's parameters, and answers the
// energy figure of a plan that is accepted. Any bytes and numbers are answered.
pub fn check(
    levels: &[u8],
    jobs: &[u8],
    marks: &[u8],
    parameters: Parameters,
    plan: &[u8],
    prices: &[u8],
) -> Result<u64, Refusal>
    ensures { result ≡ check_answer (check_of levels.now jobs.now marks.now parameters plan.now prices.now) }
{
    let mut cells = [0u64; SET_WORDS];
    check_cells(levels, jobs, marks, parameters, plan, prices, &mut cells)
}

// The check, which also leaves the cells of an accepted plan's steps, as one set of jobs for each interval. What a refused plan
// leaves there is free.
pub fn check_cells(
    levels: &[u8],
    jobs: &[u8],
    marks: &[u8],
    parameters: Parameters,
    plan: &[u8],
    prices: &[u8],
    cells: &mut [u64; SET_WORDS],
) -> Result<u64, Refusal>
    requires { NoJobs cells.old }
    ensures value { result ≡ check_answer (check_of levels.now jobs.now marks.now parameters plan.now prices.now) }
    ensures cells_seen { IsOk result → CellsSeen plan.now cells.new }
{
    let mut releases = [0u64; MAX_JOBS];
    let mut deadlines = [0u64; MAX_JOBS];
    let mut cycles = [0u64; MAX_JOBS];
    let mut times = [0u64; MAX_BOUNDS];
    let site = read_site(
        levels,
        jobs,
        marks,
        parameters,
        &mut releases,
        &mut deadlines,
        &mut cycles,
        &mut times,
    )?;
    check_site(
        site, &releases, &deadlines, &cycles, &times, plan, prices, cells,
    )
}

// The check where the site was read: the first half and, where the plan fits, the second.
fn check_site(
    site: SiteTable,
    releases: &[u64; MAX_JOBS],
    deadlines: &[u64; MAX_JOBS],
    cycles: &[u64; MAX_JOBS],
    times: &[u64; MAX_BOUNDS],
    plan: &[u8],
    prices: &[u8],
    cells: &mut [u64; SET_WORDS],
) -> Result<u64, Refusal>
    requires { HoldsSome site releases.now deadlines.now cycles.now times.now × NoJobs cells.old }
    ensures value { (s : Site) → ValidSite s → HoldsSite s site releases.now deadlines.now cycles.now times.now → result ≡ check_answer (check_for s plan.now prices.now) }
    ensures cells_seen { IsOk result → CellsSeen plan.now cells.new }
{
    let mut sets = [0u64; SET_WORDS];
    let mut loads = [0u64; MAX_INTERVALS];
    let first = fit_site(
        site, releases, deadlines, cycles, times, plan, &mut sets, &mut loads, cells,
    );
    // no `?`: so the edit unfitting_plan_accepted can plant what is answered where the first half refuses, and nothing else
    match first {
        Ok(energy) => check_prices(energy, site, times, &sets, &loads, plan, prices),
        Err(own) => Err(own),
    }
}

// The second half where the plan fits: 21 to 24, and the energy figure of the first.
fn check_prices(
    energy: u64,
    site: SiteTable,
    times: &[u64; MAX_BOUNDS],
    sets: &[u64; SET_WORDS],
    loads: &[u64; MAX_INTERVALS],
    plan: &[u8],
    prices: &[u8],
) -> Result<u64, Refusal>
    requires { (s : Site) × FittedSite s plan.now site times.now sets.now loads.now }
    ensures { (s : Site) → FittedSite s plan.now site times.now sets.now loads.now → result ≡ check_answer (pricing s plan.now prices.now (answer energy)) }
{
    price(
        site.working,
        sets,
        site.jobs,
        times,
        site.bounds,
        plan,
        loads,
        prices,
    )?;
    Ok(energy)
}
