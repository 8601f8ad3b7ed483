// One cell: how many cycles of a job an interval takes.
ghost use Rattle.std.specs.Prelude.{◌≡◌, ℕ, ◌<◌, ◌≤◌, length};
ghost use Rattle.model.specs.Limits.{max_intervals, max_bounds};
ghost use Rattle.workloads.specs.Arrays.{numbers_in};
ghost use Rattle.loads.specs.Crossing.{Lowered};
ghost use Rattle.refilling.specs.Cells.{Most, CanTake, CellTaken};

use job_sets::SET_WORDS;
use model::{MAX_BOUNDS, MAX_JOBS};
use paths::put;

// The most of `left` cycles that leaves no cross below 0: a job that is due at bound `last` takes them in an interval.
fn most(cross: &[u32; MAX_BOUNDS], left: u32, interval: usize, last: usize) -> u32
    requires { (interval < last) × (last ≤ max_intervals) }
    ensures { Most (numbers_in cross.now) left interval last result }
{
    let mut amount = left;
    for &crossing in &cross[interval + 1..last] {
        amount = amount.min(crossing);
    }
    amount
}

// Lowers the crosses of the bounds strictly between an interval's start and `last`.
fn lower(cross: &mut [u32; MAX_BOUNDS], interval: usize, last: usize, amount: u32)
    requires cross_len { (length cross.old ≡ max_bounds) × (interval < last) × (last ≤ max_intervals) }
    requires by_index { (b : ℕ) → interval < b → b < last → amount ≤ numbers_in cross.old b }
    ensures { Lowered interval last amount (numbers_in cross.old) (numbers_in cross.new)
        × (length cross.new ≡ max_bounds) }
{
    for crossing in &mut cross[interval + 1..last] {
        *crossing -= amount;
    }
}

// A job takes what it can in an interval. Where that is nothing, all stays as it is.
pub(crate) fn take(
    last: &[u8; MAX_JOBS],
    shares: &mut [u32],
    holders: &mut [u64; SET_WORDS],
    left: &mut [u64; MAX_JOBS],
    cross: &mut [u32; MAX_BOUNDS],
    jobs: usize,
    interval: usize,
    job: usize,
)
    requires { CanTake jobs last.now shares.old holders.old left.old cross.old interval job }
    ensures { CellTaken jobs last.now shares.old holders.old left.old cross.old
        shares.new holders.new left.new cross.new interval job }
{
    let end = last[job] as usize;
    let here = left[job];
    let amount = most(cross, here as u32, interval, end);
    if amount == 0 {
        return;
    }
    put(shares, holders, jobs, job, interval, amount);
    left[job] = here - amount as u64;
    lower(cross, interval, end, amount);
}

// The first bound after an interval's start that nothing must cross. There is one, so that no end is looked for.
pub(crate) fn first_uncrossed(cross: &[u32; MAX_BOUNDS], interval: usize) -> usize
    requires { (b : ℕ) × (interval < b) × (b ≤ max_intervals) × (numbers_in cross.now b ≡ 0) }
    ensures { (interval < result) × (numbers_in cross.now result ≡ 0)
        × ((b : ℕ) → interval < b → numbers_in cross.now b ≡ 0 → result ≤ b) }
{
    // no range: the search needs no end
    let mut b = interval + 1;
    while cross[b] > 0 {
        b += 1;
    }
    b
}
