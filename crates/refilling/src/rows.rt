// Filling the intervals one after another, and in each the open jobs by number.
ghost use Rattle.std.specs.Prelude.{◌≡◌, cond, true, false, ℕ, ◌+◌, ◌<◌, ◌≤◌, ltb};
ghost use Rattle.model.specs.Limits.{max_intervals};
ghost use Rattle.job_sets.specs.JobSets.{member_count, is_empty, in_first_only, no_jobs};
ghost use Rattle.job_sets.specs.IntervalSets.{set_in};
ghost use Rattle.workloads.specs.Arrays.{numbers_in};
ghost use Rattle.refilling.specs.RefillTables.{RowStarted, RowFill, RowFilled, RowsFill, AllFilled};

use crate::cells::{first_uncrossed, take};
use job_sets::{JobSet, SET_WORDS};
use model::{MAX_BOUNDS, MAX_JOBS};

// How far an interval is filled. Nothing must cross the bound `uncrossed`, so that a job that is due after it can take no cycles here. Nothing
// is left of the jobs in `finished`, and only those in `rest` are still to be asked.
#[derive(Clone, Copy)]
pub struct Row {
    pub uncrossed: usize,
    pub finished: JobSet,
    pub rest: JobSet,
}

// Of a set of jobs that are open before a bound those that are due by it: they are not open there.
fn due_by(open: &[u64; SET_WORDS], intervals: usize, set: JobSet, bound: usize) -> JobSet
    requires { intervals ≤ max_intervals }
    ensures { result ≡ cond (ltb bound intervals) (in_first_only set (set_in «open».now bound)) set }
{
    if bound < intervals {
        return set.less(job_sets::set_at(open, bound));
    }
    set
}

// The start of an interval.
fn start_row(
    open: &[u64; SET_WORDS],
    next: &[u8; MAX_BOUNDS],
    intervals: usize,
    interval: usize,
    uncrossed: usize,
    finished: JobSet,
) -> Row
    requires { (interval < intervals) × (intervals ≤ max_intervals) × ((b : ℕ) → b < intervals → numbers_in next.now b ≤ intervals) }
    ensures { RowStarted «open».now next.now intervals interval uncrossed finished result }
{
    let ahead = if interval < uncrossed {
        uncrossed
    } else {
        next[uncrossed] as usize
    };
    let unfinished = job_sets::set_at(open, interval).less(finished);
    Row {
        uncrossed: ahead,
        finished,
        rest: due_by(open, intervals, unfinished, ahead),
    }
}

// The least job of the rest takes what it can. Where some of it is left, nothing must cross some bound before it is due.
fn fill_next(
    open: &[u64; SET_WORDS],
    last: &[u8; MAX_JOBS],
    shares: &mut [u32],
    holders: &mut [u64; SET_WORDS],
    left: &mut [u64; MAX_JOBS],
    cross: &mut [u32; MAX_BOUNDS],
    next: &mut [u8; MAX_BOUNDS],
    jobs: usize,
    intervals: usize,
    interval: usize,
    row: Row,
) -> Row
    requires row_fill { RowFill jobs intervals last.now «open».now shares.old holders.old left.old cross.old next.old interval row }
    requires rest_value { is_empty row.rest ≡ false }
    ensures row_filled { RowFilled jobs intervals last.now «open».now
        shares.old holders.old left.old cross.old next.old
        shares.new holders.new left.new cross.new next.new interval row result }
    ensures rest_bound { member_count result.rest < member_count row.rest }
{
    let rest = row.rest;
    let finished = row.finished;
    let job = rest.least();
    let others = rest.without(job);
    take(last, shares, holders, left, cross, jobs, interval, job);
    if left[job] == 0 {
        return Row {
            uncrossed: row.uncrossed,
            finished: finished.with(job),
            rest: others,
        };
    }
    let uncrossed = first_uncrossed(cross, interval);
    next[uncrossed] = row.uncrossed as u8;
    Row {
        uncrossed,
        finished,
        rest: due_by(open, intervals, others, uncrossed),
    }
}

// Fills one interval.
fn fill_row(
    open: &[u64; SET_WORDS],
    last: &[u8; MAX_JOBS],
    shares: &mut [u32],
    holders: &mut [u64; SET_WORDS],
    left: &mut [u64; MAX_JOBS],
    cross: &mut [u32; MAX_BOUNDS],
    next: &mut [u8; MAX_BOUNDS],
    jobs: usize,
    intervals: usize,
    interval: usize,
    start: Row,
) -> Row
    requires { RowFill jobs intervals last.now «open».now shares.old holders.old left.old cross.old next.old interval start }
    ensures row_filled { RowFilled jobs intervals last.now «open».now
        shares.old holders.old left.old cross.old next.old
        shares.new holders.new left.new cross.new next.new interval start result }
    ensures rest_value { is_empty result.rest ≡ true }
{
    let mut row = start;
    while !row.rest.is_empty() {
        row = fill_next(
            open, last, shares, holders, left, cross, next, jobs, intervals, interval, row,
        );
    }
    row
}

// Fills all intervals. At the start nothing must cross the last bound alone, as far as is known.
pub(crate) fn fill_rows(
    open: &[u64; SET_WORDS],
    last: &[u8; MAX_JOBS],
    shares: &mut [u32],
    holders: &mut [u64; SET_WORDS],
    left: &mut [u64; MAX_JOBS],
    cross: &mut [u32; MAX_BOUNDS],
    next: &mut [u8; MAX_BOUNDS],
    jobs: usize,
    intervals: usize,
)
    requires { RowsFill jobs intervals last.now «open».now shares.old holders.old left.old cross.old next.old 0 intervals no_jobs }
    ensures { AllFilled jobs intervals last.now «open».now
        shares.old holders.old left.old cross.old next.old
        shares.new holders.new }
{
    let mut uncrossed = intervals;
    let mut finished = JobSet::none();
    for interval in 0..intervals {
        let start = start_row(open, next, intervals, interval, uncrossed, finished);
        let row = fill_row(
            open, last, shares, holders, left, cross, next, jobs, intervals, interval, start,
        );
        uncrossed = row.uncrossed;
        finished = row.finished;
    }
}
