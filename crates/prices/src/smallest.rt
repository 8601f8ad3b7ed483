// The smallest prices that fit shares, bands counted from 0.
ghost use Rattle.std.specs.Prelude.{◌≡◌, ℕ, ◌<◌, ◌≤◌, length, replicate};
ghost use Rattle.model.specs.Limits.{max_jobs, max_intervals, max_levels, max_deadline, max_frequency};
ghost use Rattle.workloads.specs.Arrays.{numbers_in};
ghost use Rattle.prices.specs.RisingPrices.{LeastBand, WindowStep, MembersRaised, HighestPrices, ArraysPrice, ArraysPriced, WindowsRise, WindowsRisen, JobsRaise, JobsRaised};

use crate::ranges::{is_below, raise};
use job_sets::{JobSet, SET_WORDS};
use model::{MAX_INTERVALS, MAX_JOBS, MAX_POINTS};

// The prices rise from the least ones that the loads allow, until a pass over the jobs changes nothing.
// The arrays of a workload are lent, since for few jobs a copy takes longer than a pass. Of the shares it is enough to know where there are
// some: the sets of the jobs with a share are small, and the table of the shares is as large as a processor's first cache.
pub fn smallest_prices(
    jobs: usize,
    intervals: usize,
    bands: usize,
    first: &[u8; MAX_JOBS],
    last: &[u8; MAX_JOBS],
    size: &[u64; MAX_INTERVALS],
    frequency: &[u64; MAX_POINTS],
    holders: &[u64; SET_WORDS],
    loads: &[u64; MAX_INTERVALS],
    prices: &mut [u8; MAX_INTERVALS],
)
    requires arrays_price { ArraysPrice jobs intervals bands first.now last.now size.now frequency.now holders.now loads.now }
    requires prices_len { length prices.old ≡ max_intervals }
    ensures { ArraysPriced jobs intervals bands first.now last.now size.now frequency.now
        holders.now loads.now prices.new
        × (length prices.new ≡ max_intervals) }
{
    least_prices(intervals, bands, size, frequency, loads, prices);
    while raise_all(jobs, intervals, first, last, holders, prices) {}
}

// The least price that each load allows. The array is not cleared, which would take longer than this for a small site.
fn least_prices(
    intervals: usize,
    bands: usize,
    size: &[u64; MAX_INTERVALS],
    frequency: &[u64; MAX_POINTS],
    loads: &[u64; MAX_INTERVALS],
    prices: &mut [u8; MAX_INTERVALS],
)
    requires intervals_le_max_intervals { (intervals ≤ max_intervals) × (bands ≤ max_levels) × (length prices.old ≡ max_intervals) }
    requires by_index { ((i : ℕ) → i < intervals → numbers_in size.now i ≤ max_deadline) × ((k : ℕ) → k ≤ bands → numbers_in frequency.now k ≤ max_frequency) }
    ensures { (length prices.new ≡ max_intervals)
        × ((i : ℕ) → i < intervals
        → LeastBand (numbers_in frequency.now) bands (numbers_in size.now i) (numbers_in loads.now i) (numbers_in prices.new i)) }
{
    for i in 0..intervals {
        let band = least_band(frequency, bands, size[i], loads[i]);
        prices[i] = band as u8;
    }
}

// The least band that ends at or above a load. A setting's band is searched alike, but over a table of points, for its own definition and in
// a crate that planning has no other use for: neither search calls the other.
fn least_band(frequency: &[u64; MAX_POINTS], bands: usize, size: u64, load: u64) -> usize
    requires { (bands ≤ max_levels) × (size ≤ max_deadline) × ((k : ℕ) → k ≤ bands → numbers_in frequency.now k ≤ max_frequency) }
    ensures { (result ≤ bands) × LeastBand (numbers_in frequency.now) bands size load result }
{
    for band in 0..bands {
        if load <= size * frequency[band + 1] {
            return band;
        }
    }
    bands
}

// Goes over the jobs once, and answers whether a price was raised.
fn raise_all(
    jobs: usize,
    intervals: usize,
    first: &[u8; MAX_JOBS],
    last: &[u8; MAX_JOBS],
    holders: &[u64; SET_WORDS],
    prices: &mut [u8; MAX_INTERVALS],
) -> bool
    requires { WindowsRise jobs intervals first.now last.now holders.now prices.old }
    ensures { WindowsRisen jobs intervals first.now last.now holders.now prices.old prices.new result }
{
    let mut highest = [0u8; MAX_JOBS];
    highest_prices(holders, prices, intervals, &mut highest);
    raise_jobs(jobs, first, last, &highest, prices)
}

// For each job the highest price at which it has a share, 0 where it has none, put into an array of zeros. The shares are few: going over them
// once is shorter than going over every job's window.
fn highest_prices(
    holders: &[u64; SET_WORDS],
    prices: &[u8; MAX_INTERVALS],
    intervals: usize,
    highest: &mut [u8; MAX_JOBS],
)
    requires { (intervals ≤ max_intervals) × (highest.old ≡ replicate max_jobs 0) }
    ensures { HighestPrices holders.now prices.now intervals highest.new }
{
    for (i, &price) in prices[..intervals].iter().enumerate() {
        raise_members(job_sets::set_at(holders, i), price, highest);
    }
}

// Raises the numbers of a set's members to at least a price.
fn raise_members(set: JobSet, price: u8, highest: &mut [u8; MAX_JOBS])
    requires { length highest.old ≡ max_jobs }
    ensures { MembersRaised set price highest.old highest.new }
{
    let mut rest = set;
    while !rest.is_empty() {
        let job = rest.least();
        highest[job] = highest[job].max(price);
        rest = rest.without(job);
    }
}

// Raises the prices of each job's window to the highest one at which it has a share, and answers whether one was lower.
fn raise_jobs(
    jobs: usize,
    first: &[u8; MAX_JOBS],
    last: &[u8; MAX_JOBS],
    highest: &[u8; MAX_JOBS],
    prices: &mut [u8; MAX_INTERVALS],
) -> bool
    requires { JobsRaise jobs first.now last.now highest.now prices.old }
    ensures { JobsRaised jobs first.now last.now highest.now prices.old prices.new result }
{
    let mut changed = false;
    for job in 0..jobs {
        if raise_window(
            prices,
            first[job] as usize,
            last[job] as usize,
            highest[job],
        ) {
            changed = true;
        }
    }
    changed
}

// Raises the prices of a window to at least a price, and answers whether one was lower.
fn raise_window(prices: &mut [u8; MAX_INTERVALS], first: usize, last: usize, price: u8) -> bool
    requires { (first ≤ last) × (last ≤ max_intervals) × (length prices.old ≡ max_intervals) }
    ensures { WindowStep prices.old prices.new first last price result }
{
    if is_below(prices, first, last, price) {
        raise(prices, first, last, price);
        return true;
    }
    false
}
