// The first half of the check, from bytes: whether a plan fits a site, without prices.
ghost use Rattle.std.specs.Prelude.{◌≡◌, replicate};
ghost use Rattle.model.specs.Limits.{max_intervals};
ghost use Rattle.model.specs.Checking.{fits as fits_of};
ghost use Rattle.site.specs.SiteTables.{HoldsSome};
ghost use Rattle.job_records.specs.SetsHave.{NoJobs};
ghost use Rattle.audit.specs.Answers.{fits_answer};
ghost use Rattle.audit.specs.Halves.{SiteAnswered};

use energy::energy_figure;
use fitting::fit;
use job_sets::SET_WORDS;
use model::{MAX_BOUNDS, MAX_INTERVALS, MAX_JOBS, Parameters, Refusal};
use site::{SiteTable, read_site};

// Checks that a plan fits a level table, a job table and handover marks, altered by a site's parameters: refusals 15 to 20 after those of
// the tables and the parameters. It answers the energy figure of a plan that fits. Any bytes and numbers are answered.
pub fn fits(
    levels: &[u8],
    jobs: &[u8],
    marks: &[u8],
    parameters: Parameters,
    plan: &[u8],
) -> Result<u64, Refusal>
    ensures { result ≡ fits_answer (fits_of levels.now jobs.now marks.now parameters plan.now) }
{
    let mut releases = [0u64; MAX_JOBS];
    let mut deadlines = [0u64; MAX_JOBS];
    let mut cycles = [0u64; MAX_JOBS];
    let mut times = [0u64; MAX_BOUNDS];
    let site = read_site(
        levels,
        jobs,
        marks,
        parameters,
        &mut releases,
        &mut deadlines,
        &mut cycles,
        &mut times,
    )?;
    fit_site(
        site,
        &releases,
        &deadlines,
        &cycles,
        &times,
        plan,
        &mut [0; SET_WORDS],
        &mut [0; MAX_INTERVALS],
        &mut [0; SET_WORDS],
    )
}

// The first half where the site was read: 15 to 20, and the energy figure. Where the plan fits it leaves what the second half needs: the
// open sets of the intervals, the loads that the plan makes there, and the cells of its steps. What a refused plan leaves there is free.
pub(crate) fn fit_site(
    site: SiteTable,
    releases: &[u64; MAX_JOBS],
    deadlines: &[u64; MAX_JOBS],
    cycles: &[u64; MAX_JOBS],
    times: &[u64; MAX_BOUNDS],
    plan: &[u8],
    sets: &mut [u64; SET_WORDS],
    loads: &mut [u64; MAX_INTERVALS],
    cells: &mut [u64; SET_WORDS],
) -> Result<u64, Refusal>
    requires holds_some { HoldsSome site releases.now deadlines.now cycles.now times.now }
    requires no_jobs { NoJobs sets.old × (loads.old ≡ replicate max_intervals 0) × NoJobs cells.old }
    ensures { SiteAnswered site releases.now deadlines.now cycles.now times.now plan.now result sets.new loads.new cells.new }
{
    let bounds = site.bounds;
    fit(
        site.top, releases, deadlines, cycles, site.jobs, times, bounds, plan, sets, loads, cells,
    )?;
    Ok(energy_figure(site.working, times, bounds, loads))
}
