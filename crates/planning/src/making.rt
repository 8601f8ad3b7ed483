// The plan where a site was read, no window of it is overfull, and the buffers are long enough.
ghost use Rattle.std.specs.Prelude.{◌≡◌, ℕ, ◌+◌, ◌-◌, ◌<◌, ◌≤◌, get_or, replicate};
ghost use Rattle.model.specs.Limits.{max_intervals};
ghost use Rattle.model.specs.Sites.{Site};
ghost use Rattle.reading.specs.Column.{column_of};
ghost use Rattle.planning.specs.MadePlans.{CanMake, MadePlan};

use crate::placing::place_short;
use energy::energy_figure;
use intervals::interval_count;
use job_sets::SET_WORDS;
use model::{MAX_BOUNDS, MAX_INTERVALS, MAX_JOBS};
use price_writing::write_prices;
use prices::smallest_prices;
use site::SiteTable;
use writing::write_plan;

// Intervals, steps and energy figure of a plan.
#[derive(Clone, Copy)]
pub struct Figures {
    pub intervals: usize,
    pub steps: usize,
    pub energy: u64,
}

// Places the jobs, finds the smallest prices, and writes both.
pub(crate) fn make_plan(
    site: SiteTable,
    cycles: &[u64; MAX_JOBS],
    times: &[u64; MAX_BOUNDS],
    first: &[u8; MAX_JOBS],
    last: &[u8; MAX_JOBS],
    open: &[u64; SET_WORDS],
    plan: &mut [u8],
    prices: &mut [u8],
    shares: &mut [u32],
) -> Figures
    requires { (s : Site) × CanMake s site cycles.now times.now first.now last.now «open».now
        (record { plan = plan.now; prices = prices.old; shares = shares.old }) }
    ensures { (s : Site) → CanMake s site cycles.now times.now first.now last.now «open».now
        (record { plan = plan.entry.now; prices = prices.old; shares = shares.old })
        → MadePlan s result.intervals result.steps result.energy
        (record { plan = plan.entry.now; prices = prices.old; shares = shares.old })
        (record { plan = plan.exit.now; prices = prices.new; shares = shares.new }) }
{
    let jobs = site.jobs;
    let intervals = interval_count(site.bounds);
    let working = site.working;
    let bands = working.count - 1;
    let mut size = [0u64; MAX_INTERVALS];
    let mut loads = [0u64; MAX_INTERVALS];
    let mut numbers = [0u8; MAX_INTERVALS];
    let mut holders = [0u64; SET_WORDS];
    sizes(times, intervals, &mut size);
    place_short(
        jobs,
        intervals,
        bands,
        first,
        last,
        cycles,
        &size,
        &working.frequencies,
        open,
        shares,
        &mut loads,
        &mut numbers,
        &mut holders,
    );
    smallest_prices(
        jobs,
        intervals,
        bands,
        first,
        last,
        &size,
        &working.frequencies,
        &holders,
        &loads,
        &mut numbers,
    );
    let steps = write_plan(shares, &holders, jobs, intervals, plan);
    write_prices(times, &numbers, intervals, prices);
    let energy = energy_figure(working, times, site.bounds, &loads);
    Figures {
        intervals,
        steps,
        energy,
    }
}

// Fills an array of zeros with the length of each interval.
fn sizes(times: &[u64; MAX_BOUNDS], intervals: usize, lengths: &mut [u64; MAX_INTERVALS])
    requires { (intervals ≤ max_intervals) × (lengths.old ≡ replicate max_intervals 0) × ((i : ℕ) → i < intervals → get_or times.now i 0 ≤ get_or times.now (i + 1) 0) }
    ensures { lengths.new ≡ column_of max_intervals intervals (λ i. get_or times.now (i + 1) 0 - get_or times.now i 0) }
{
    for i in 0..intervals {
        lengths[i] = times[i + 1] - times[i];
    }
}
