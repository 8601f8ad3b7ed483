// Placing all jobs in few steps.
ghost use Rattle.std.specs.Prelude.{◌≡◌, ◌+◌, ◌-◌, ◌*◌, ◌^◌, ◌<◌, ◌≤◌, length, replicate};
ghost use Rattle.model.specs.Limits.{max_jobs, max_intervals};
ghost use Rattle.model.specs.Sum.{sum};
ghost use Rattle.model.specs.Plans.{shares_in};
ghost use Rattle.job_sets.specs.IntervalSets.{set_words};
ghost use Rattle.workloads.specs.RangesFit.{RangesFit};
ghost use Rattle.workloads.specs.Arrays.{numbers_in, problem_in, workload_with, SoundWorkload, Holding, KeptPast};
ghost use Rattle.loads.specs.Refilled.{cell_count};
ghost use Rattle.refilling.specs.RefillTables.{OpenSets};
ghost use Rattle.planner.specs.PlacedTables.{PlacedTables};

use job_sets::SET_WORDS;
use model::{MAX_INTERVALS, MAX_JOBS, MAX_POINTS};
use planner::place;
use refilling::refill;

// Places all jobs at least price, which finds the loads, and fills these anew. The prices that fit what was placed still fit: the loads tell
// them.
pub(crate) fn place_short(
    jobs: usize,
    intervals: usize,
    bands: usize,
    first: &[u8; MAX_JOBS],
    last: &[u8; MAX_JOBS],
    cycles: &[u64; MAX_JOBS],
    size: &[u64; MAX_INTERVALS],
    frequency: &[u64; MAX_POINTS],
    open: &[u64; SET_WORDS],
    shares: &mut [u32],
    loads: &mut [u64; MAX_INTERVALS],
    prices: &mut [u8; MAX_INTERVALS],
    holders: &mut [u64; SET_WORDS],
)
    requires sound_workload { SoundWorkload (workload_with cycles.now jobs intervals bands first.now last.now size.now frequency.now) }
    requires ranges_fit { RangesFit (problem_in (workload_with cycles.now jobs intervals bands first.now last.now size.now frequency.now)) }
    requires jobs_in_bounds { intervals * jobs ≤ length shares.old }
    requires cycles_len { (length cycles.now ≡ max_jobs) × (sum jobs (numbers_in cycles.now) < 2 ^ 32) }
    requires open_sets { OpenSets (workload_with cycles.now jobs intervals bands first.now last.now size.now frequency.now) «open».now }
    requires loads_value { (loads.old ≡ replicate max_intervals 0) × (prices.old ≡ replicate max_intervals 0) × (holders.old ≡ replicate set_words 0) }
    ensures { PlacedTables (workload_with cycles.now jobs intervals bands first.now last.now size.now frequency.now)
        shares.new loads.new prices.new
        × KeptPast (intervals * jobs) shares.old shares.new
        × Holding (problem_in (workload_with cycles.now jobs intervals bands first.now last.now size.now frequency.now))
        (shares_in jobs shares.new) holders.new
        × (cell_count (problem_in (workload_with cycles.now jobs intervals bands first.now last.now size.now frequency.now))
        (shares_in jobs shares.new) ≤ jobs + intervals - 1) }
{
    place(
        jobs, intervals, bands, first, last, cycles, size, frequency, open, shares, loads, prices,
        holders,
    );
    refill(jobs, intervals, last, cycles, open, loads, shares, holders);
}
