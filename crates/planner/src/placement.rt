// Placing the jobs band after band. The shares table has the share of job j in interval i at i × jobs + j.
ghost use Rattle.std.specs.Prelude.{◌≡◌, true, ℕ, ◌*◌, ◌<◌, ◌≤◌, length, replicate};
ghost use Rattle.model.specs.Limits.{max_jobs, max_intervals};
ghost use Rattle.model.specs.Plans.{shares_in};
ghost use Rattle.job_sets.specs.JobSets.{is_member};
ghost use Rattle.job_sets.specs.IntervalSets.{set_words, set_in};
ghost use Rattle.workloads.specs.RangesFit.{RangesFit};
ghost use Rattle.workloads.specs.Arrays.{numbers_in, problem_in, workload_with, SoundWorkload, Holding, KeptPast};
ghost use Rattle.planner.specs.PlacedTables.{PlacedTables};

use crate::moving::move_jobs;
use crate::rooms::{add_band, loads_of};
use filling::fill_jobs;
use job_sets::SET_WORDS;
use model::{MAX_INTERVALS, MAX_JOBS, MAX_POINTS};

// Places all jobs, from an empty table. Prices are bands, counted from 0. At each band the jobs go into their own windows as
// far as these have room, and what is still left of them goes along paths. Until the end the array of the loads has the room.
// For each interval `open` has the set of the jobs that are open there. These tell the order in which windows are filled, and
// least price does not rest on it: all that is asked of them is that their members are jobs.
// Beside the shares stand for each interval its load, its price and the set of the jobs with a share there: three arrays that
// come as zeros. A price fits a byte, and an array of bytes is cleared sooner. The table of the shares is cleared here, as far
// as the site fills it.
pub fn place(
    jobs: usize,
    intervals: usize,
    bands: usize,
    first: &[u8; MAX_JOBS],
    last: &[u8; MAX_JOBS],
    cycles: &[u64; MAX_JOBS],
    size: &[u64; MAX_INTERVALS],
    frequency: &[u64; MAX_POINTS],
    open: &[u64; SET_WORDS],
    shares: &mut [u32],
    loads: &mut [u64; MAX_INTERVALS],
    prices: &mut [u8; MAX_INTERVALS],
    holders: &mut [u64; SET_WORDS],
)
    requires sound_workload { SoundWorkload (workload_with cycles.now jobs intervals bands first.now last.now size.now frequency.now) }
    requires ranges_fit { RangesFit (problem_in (workload_with cycles.now jobs intervals bands first.now last.now size.now frequency.now)) }
    requires jobs_in_bounds { intervals * jobs ≤ length shares.old }
    requires cycles_len { length cycles.now ≡ max_jobs }
    requires by_index { (i j : ℕ) → i < intervals → is_member (set_in «open».now i) j ≡ true → j < jobs }
    requires loads_value { (loads.old ≡ replicate max_intervals 0) × (prices.old ≡ replicate max_intervals 0) × (holders.old ≡ replicate set_words 0) }
    ensures { PlacedTables (workload_with cycles.now jobs intervals bands first.now last.now size.now frequency.now)
        shares.new loads.new prices.new
        × KeptPast (intervals * jobs) shares.old shares.new
        × Holding (problem_in (workload_with cycles.now jobs intervals bands first.now last.now size.now frequency.now))
        (shares_in jobs shares.new) holders.new }
{
    clear(shares, intervals * jobs);
    let mut left = *cycles;
    for band in 0..bands {
        let gap = frequency[band + 1] - frequency[band];
        add_band(size, intervals, gap, loads);
        fill_jobs(
            first, last, open, shares, loads, holders, &mut left, jobs, intervals,
        );
        move_jobs(
            first, last, shares, loads, holders, prices, &mut left, jobs, band as u8,
        );
    }
    loads_of(size, intervals, frequency[bands], loads);
}

// Sets the first numbers of the table to 0.
fn clear(shares: &mut [u32], count: usize)
    requires { count ≤ length shares.old }
    ensures { KeptPast count shares.old shares.new
        × ((k : ℕ) → k < count → numbers_in shares.new k ≡ 0) }
{
    shares[..count].fill(0);
}
