// The second half of the check, refusals 21 to 24: the prices fit the plan.
ghost use Rattle.std.specs.Prelude.{◌≡◌, not, ◌&&◌, List, ◌+◌, ◌-◌, ◌*◌, ◌≤◌, length, get_or, leb, eqb};
ghost use Rattle.model.specs.declared.Job.{Job};
ghost use Rattle.model.specs.Limits.{max_jobs, max_deadline, max_frequency, max_intervals};
ghost use Rattle.model.specs.Outcome.{by_entry};
ghost use Rattle.model.specs.Bands.{Curve};
ghost use Rattle.model.specs.Processors.{Processor, working_of};
ghost use Rattle.model.specs.Checking.{pricing};
ghost use Rattle.reading.specs.Column.{column_of};
ghost use Rattle.levels.specs.PointTables.{points_of, SmallPoints};
ghost use Rattle.intervals.specs.Times.{SmallBounds};
ghost use Rattle.fitting.specs.Verdicts.{verdict_of, passed};
ghost use Rattle.job_records.specs.SetsHave.{SetsHave};
ghost use Rattle.job_records.specs.TestedJobs.{open_below};
ghost use Rattle.fitting.specs.FirstHalf.{site_in};
ghost use Rattle.pricing.specs.SecondHalf.{Planned, BandNumbers, wrong_length_in, entry_fault_in, price_fault_in};

use crate::cheapest::check_cheapest;
use intervals::interval_count;
use job_sets::SET_WORDS;
use levels::PointTable;
use model::{Fault, MAX_BOUNDS, MAX_INTERVALS, Refusal};
use reading::{number16, number32};

// Checks a price list against a plan that fits, with the open sets and the loads of its intervals.
pub fn price(
    working: PointTable,
    sets: &[u64; SET_WORDS],
    count: usize,
    times: &[u64; MAX_BOUNDS],
    bounds: usize,
    plan: &[u8],
    loads: &[u64; MAX_INTERVALS],
    prices: &[u8],
) -> Result<(), Refusal>
    requires small_points { SmallPoints working × Curve (points_of working) }
    requires small_bounds { SmallBounds bounds times.now × (count ≤ max_jobs) }
    requires planned { Planned count bounds plan.now loads.now }
    ensures { (processor : Processor) (jobs : List Job) → working_of processor ≡ points_of working → length jobs ≡ count → SetsHave sets.now (open_below jobs count times.now bounds) → result ≡ verdict_of (pricing (site_in processor jobs times.now bounds) plan.now prices.now passed) }
{
    let intervals = interval_count(bounds);
    if wrong_price_length(prices, intervals) {
        return Err(Fault::PricesLength.at(0));
    }
    let numbers = price_numbers(prices, intervals);
    let bands = (working.count - 1) as u64;
    check_entries(bands, times, intervals, prices, &numbers)?;
    check_fits(working, times, bounds, loads, &numbers)?;
    check_cheapest(sets, bounds, plan, &numbers)
}

// Whether the bytes are under 2, have another number of intervals or are not 2 + 5 × that number.
fn wrong_price_length(prices: &[u8], intervals: usize) -> bool
    requires { intervals ≤ max_intervals }
    ensures { result ≡ wrong_length_in intervals prices.now }
{
    if prices.len() < 2 {
        return true;
    }
    if number16(prices, 0) as usize != intervals {
        return true;
    }
    prices.len() != 2 + 5 * intervals
}

// The prices of a list of the right length; zeros past the last interval.
fn price_numbers(prices: &[u8], intervals: usize) -> [u64; MAX_INTERVALS]
    requires { (intervals ≤ max_intervals) × (length prices.now ≡ 2 + 5 * intervals) }
    ensures { result ≡ column_of max_intervals intervals (λ i. get_or prices.now (2 + 4 * intervals + i) 0) }
{
    let mut numbers = [0u64; MAX_INTERVALS];
    for i in 0..intervals {
        numbers[i] = prices[2 + 4 * intervals + i] as u64;
    }
    numbers
}

// Goes through the intervals one after another: refusal 22.
fn check_entries(
    bands: u64,
    times: &[u64; MAX_BOUNDS],
    intervals: usize,
    prices: &[u8],
    numbers: &[u64; MAX_INTERVALS],
) -> Result<(), Refusal>
    requires { (intervals ≤ max_intervals) × (length prices.now ≡ 2 + 5 * intervals) }
    ensures { result ≡ verdict_of (by_entry intervals (entry_fault_in bands times.now prices.now numbers.now) passed) }
{
    for i in 0..intervals {
        let end = number32(prices, 2 + 4 * i);
        if wrong_entry(end, times[i + 1], numbers[i], bands) {
            return Err(Fault::PriceEntry.at(i as u32));
        }
    }
    Ok(())
}

// Whether an interval's end is not its bound or its price is not 1 to the number of bands.
fn wrong_entry(end: u64, bound: u64, number: u64, bands: u64) -> bool
    ensures { result ≡ not (eqb end bound && (leb 1 number && leb number bands)) }
{
    if end != bound {
        return true;
    }
    if number < 1 {
        return true;
    }
    if number > bands {
        return true;
    }
    false
}

// Goes through the intervals one after another: refusal 23.
fn check_fits(
    working: PointTable,
    times: &[u64; MAX_BOUNDS],
    bounds: usize,
    loads: &[u64; MAX_INTERVALS],
    numbers: &[u64; MAX_INTERVALS],
) -> Result<(), Refusal>
    requires small_points { SmallPoints working × Curve (points_of working) }
    requires small_bounds { SmallBounds bounds times.now × BandNumbers (working.count - 1) (bounds - 1) numbers.now }
    ensures { result ≡ verdict_of (by_entry (bounds - 1) (price_fault_in (points_of working) times.now loads.now numbers.now) passed) }
{
    for i in 0..interval_count(bounds) {
        let k = numbers[i] as usize;
        let low = working.frequencies[k - 1];
        let high = working.frequencies[k];
        if is_outside(times[i + 1] - times[i], loads[i], low, high) {
            return Err(Fault::PriceLoad.at(i as u32));
        }
    }
    Ok(())
}

// Whether a load does not lie between what the lower and the upper end of a band give in an interval.
fn is_outside(length: u64, load: u64, low: u64, high: u64) -> bool
    requires { (length ≤ max_deadline) × (low ≤ max_frequency) × (high ≤ max_frequency) }
    ensures { result ≡ not (leb (length * low) load && leb load (length * high)) }
{
    if load < length * low {
        return true;
    }
    if load > length * high {
        return true;
    }
    false
}
