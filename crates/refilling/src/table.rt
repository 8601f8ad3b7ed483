// Filling the loads of a plan anew.
ghost use Rattle.workloads.specs.Workloads.{Workload};
ghost use Rattle.refilling.specs.RefillTables.{lent_cycles};
ghost use Rattle.refilling.specs.RefilledTables.{CanRefill, RefilledTables};

use crate::clearing::clear;
use crate::crosses::add_loads;
use crate::rows::fill_rows;
use due_cycles::add_due;
use job_sets::SET_WORDS;
use model::{MAX_BOUNDS, MAX_INTERVALS, MAX_JOBS};

// Replaces the shares of a plan by others with the same loads and few steps, at most jobs + intervals − 1: interval after interval, and in
// each the open jobs by number, each as much as what must still cross each bound allows. Beside the shares stand for each interval its load,
// which stays, the set of the jobs that are open there, and the set of those with a share, which changes with the shares.
// What crosses the bounds is kept in 32 bits, so that the processor can look at several of them at a time.
pub fn refill(
    jobs: usize,
    intervals: usize,
    last: &[u8; MAX_JOBS],
    cycles: &[u64; MAX_JOBS],
    open: &[u64; SET_WORDS],
    loads: &[u64; MAX_INTERVALS],
    shares: &mut [u32],
    holders: &mut [u64; SET_WORDS],
)
    requires { (work : Workload) × CanRefill (lent_cycles work jobs intervals last.now cycles.now) «open».now shares.old loads.now holders.old }
    ensures { (work : Workload) → CanRefill (lent_cycles work jobs intervals last.now cycles.now)
        «open».now shares.old loads.now holders.old
        → RefilledTables (lent_cycles work jobs intervals last.now cycles.now)
        shares.old loads.now shares.new holders.new }
{
    clear(shares, holders, jobs, intervals);
    let mut cross = [0u32; MAX_BOUNDS];
    add_due(last, cycles, jobs, &mut cross);
    add_loads(loads, intervals, &mut cross);
    let mut left = *cycles;
    let mut next = [intervals as u8; MAX_BOUNDS];
    fill_rows(
        open, last, shares, holders, &mut left, &mut cross, &mut next, jobs, intervals,
    );
}
