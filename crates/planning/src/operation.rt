// Planning, from bytes.
ghost use Rattle.std.specs.Prelude.{◌≡◌, ℕ, ◌^◌, ◌<◌, Ok, Err, cond, ltb};
ghost use Rattle.model.specs.Sites.{Site, ValidSite};
ghost use Rattle.site.specs.SiteTables.{HoldsSite, HoldsSome};
ghost use Rattle.planning.specs.SiteArrays.{InArrays};
ghost use Rattle.planning.specs.MadePlans.{FitsIn};
ghost use Rattle.planning.specs.PlanAnswers.{SitePlanned, PlanContract};

use crate::making::make_plan;
use intervals::{bound_numbers, interval_count, open_sets};
use job_sets::SET_WORDS;
use model::{Fault, MAX_BOUNDS, MAX_JOBS, Parameters, Refusal};
use rooms::rooms_of;
use site::{SiteTable, read_site};
use spare::{NoAnswer, window_spare};
use windows::earliest_overfull;

// Intervals, steps and energy figure of the plan that was written.
#[derive(Clone, Copy, Debug, PartialEq, Eq)]
pub struct WrittenPlan {
    pub intervals: u32,
    pub steps: u32,
    pub energy: u64,
}

// Plans a site: writes a plan of least energy, its prices and its shares. Any bytes, numbers and buffers are answered.
pub fn plan(
    levels: &[u8],
    jobs: &[u8],
    marks: &[u8],
    parameters: Parameters,
    plan: &mut [u8],
    prices: &mut [u8],
    shares: &mut [u32],
) -> Result<WrittenPlan, NoAnswer>
    ensures { PlanContract levels.now jobs.now marks.now parameters
        (record { plan = plan.entry.now; prices = prices.old; shares = shares.old })
        (record { plan = plan.exit.now; prices = prices.new; shares = shares.new }) result }
{
    let mut releases = [0u64; MAX_JOBS];
    let mut deadlines = [0u64; MAX_JOBS];
    let mut cycles = [0u64; MAX_JOBS];
    let mut times = [0u64; MAX_BOUNDS];
    let site = read_site(
        levels,
        jobs,
        marks,
        parameters,
        &mut releases,
        &mut deadlines,
        &mut cycles,
        &mut times,
    )?;
    plan_site(
        site, &releases, &deadlines, &cycles, &times, plan, prices, shares,
    )
}

// Planning where the site was read: for each job the numbers of its bounds, and for each interval the set of the jobs open there,
// are found once, for all that follows.
fn plan_site(
    site: SiteTable,
    releases: &[u64; MAX_JOBS],
    deadlines: &[u64; MAX_JOBS],
    cycles: &[u64; MAX_JOBS],
    times: &[u64; MAX_BOUNDS],
    plan: &mut [u8],
    prices: &mut [u8],
    shares: &mut [u32],
) -> Result<WrittenPlan, NoAnswer>
    requires { HoldsSome site releases.now deadlines.now cycles.now times.now }
    ensures { (s : Site) → ValidSite s → HoldsSite s site releases.now deadlines.now cycles.now times.now → SitePlanned s
        (record { plan = plan.entry.now; prices = prices.old; shares = shares.old })
        (record { plan = plan.exit.now; prices = prices.new; shares = shares.new }) result }
{
    let count = site.jobs;
    let mut first = [0u8; MAX_JOBS];
    let mut last = [0u8; MAX_JOBS];
    let mut open = [0u64; SET_WORDS];
    bound_numbers(releases, count, times, site.bounds, &mut first);
    bound_numbers(deadlines, count, times, site.bounds, &mut last);
    open_sets(&first, &last, count, &mut open);
    plan_or_window(
        site, releases, deadlines, cycles, times, &first, &last, &open, plan, prices, shares,
    )
}

// The earliest overfull window, or a plan.
fn plan_or_window(
    site: SiteTable,
    releases: &[u64; MAX_JOBS],
    deadlines: &[u64; MAX_JOBS],
    cycles: &[u64; MAX_JOBS],
    times: &[u64; MAX_BOUNDS],
    first: &[u8; MAX_JOBS],
    last: &[u8; MAX_JOBS],
    open: &[u64; SET_WORDS],
    plan: &mut [u8],
    prices: &mut [u8],
    shares: &mut [u32],
) -> Result<WrittenPlan, NoAnswer>
    requires { (s : Site) × InArrays s site cycles.now times.now first.now last.now «open».now
        × HoldsSite s site releases.now deadlines.now cycles.now times.now }
    ensures { (s : Site) → InArrays s site cycles.now times.now first.now last.now «open».now
        → HoldsSite s site releases.now deadlines.now cycles.now times.now → SitePlanned s
        (record { plan = plan.entry.now; prices = prices.old; shares = shares.old })
        (record { plan = plan.exit.now; prices = prices.new; shares = shares.new }) result }
{
    let intervals = interval_count(site.bounds);
    let top = site.top;
    let test = earliest_overfull(times, cycles, open, intervals, top);
    if let Some(window) = test.found {
        let spare = window_spare(
            releases,
            deadlines,
            cycles,
            site.jobs,
            top,
            window.start,
            window.end,
        );
        return Err(NoAnswer::Overfull {
            start: window.start as u32,
            end: window.end as u32,
            spare,
        });
    }
    plan_fitting(site, cycles, times, first, last, open, plan, prices, shares)
}

// Planning where no window is overfull: each buffer is compared with the length wanted, and then the plan is made.
fn plan_fitting(
    site: SiteTable,
    cycles: &[u64; MAX_JOBS],
    times: &[u64; MAX_BOUNDS],
    first: &[u8; MAX_JOBS],
    last: &[u8; MAX_JOBS],
    open: &[u64; SET_WORDS],
    plan: &mut [u8],
    prices: &mut [u8],
    shares: &mut [u32],
) -> Result<WrittenPlan, NoAnswer>
    requires { (s : Site) × FitsIn s site cycles.now times.now first.now last.now «open».now }
    ensures { (s : Site) → FitsIn s site cycles.now times.now first.now last.now «open».now → SitePlanned s
        (record { plan = plan.entry.now; prices = prices.old; shares = shares.old })
        (record { plan = plan.exit.now; prices = prices.new; shares = shares.new }) result }
{
    let rooms = rooms_of(site.jobs, interval_count(site.bounds), open);
    room_for(rooms.plan, plan.len(), Fault::PlanRoom)?;
    room_for(rooms.prices, prices.len(), Fault::PricesRoom)?;
    room_for(rooms.shares, shares.len(), Fault::ListRoom)?;
    let figures = make_plan(site, cycles, times, first, last, open, plan, prices, shares);
    Ok(WrittenPlan {
        intervals: figures.intervals as u32,
        steps: figures.steps as u32,
        energy: figures.energy,
    })
}

// Refuses a buffer that is shorter than the length wanted.
fn room_for(wanted: usize, length: usize, fault: Fault) -> Result<(), Refusal>
    requires { wanted < 2 ^ 32 }
    ensures { result ≡ cond (ltb length wanted) (Err (record { fault = fault; place = wanted })) (Ok tt) }
{
    if length < wanted {
        return Err(fault.at(wanted as u32));
    }
    Ok(())
}
