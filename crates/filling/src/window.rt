// Filling the jobs' own windows at a band: cycles go into each interval that has room, as far as they reach.
ghost use Rattle.std.specs.Prelude.{◌≡◌, true, ℕ, ◌+◌, ◌<◌, ◌≤◌};
ghost use Rattle.model.specs.Limits.{max_intervals};
ghost use Rattle.job_sets.specs.JobSets.{is_member};
ghost use Rattle.job_sets.specs.IntervalSets.{set_in};
ghost use Rattle.filling.specs.OwnWindows.{RangeFill, RangeFilled, TurnFill, TurnFilled, WindowsPass, WindowsPassed};

use job_sets::{JobSet, SET_WORDS};
use model::{MAX_INTERVALS, MAX_JOBS};
use paths::{Turn, put};

// Fills the windows of the jobs by deadline, the earliest first, and among equal deadlines by number: interval after interval,
// those in its set of open jobs and not in that of the next one. This is for speed: a cycle that goes into its job's own window
// needs no search, and in this order few have to go along paths. Whatever is put there, the planner then places what is left at
// least price.
pub fn fill_jobs(
    first: &[u8; MAX_JOBS],
    last: &[u8; MAX_JOBS],
    open: &[u64; SET_WORDS],
    shares: &mut [u32],
    room: &mut [u64; MAX_INTERVALS],
    holders: &mut [u64; SET_WORDS],
    left: &mut [u64; MAX_JOBS],
    jobs: usize,
    intervals: usize,
)
    requires windows_pass { WindowsPass jobs first.now last.now shares.old room.old holders.old left.old }
    requires intervals_le_max_intervals { intervals ≤ max_intervals }
    requires by_index { (i j : ℕ) → i < intervals → is_member (set_in «open».now i) j ≡ true → j < jobs }
    ensures { WindowsPassed jobs first.now last.now
        shares.old room.old holders.old left.old
        shares.new room.new holders.new left.new }
{
    for interval in 0..intervals {
        let set = job_sets::leaving(open, intervals, interval);
        fill_set(first, last, set, shares, room, holders, left, jobs);
    }
}

// Fills the windows of the jobs in a set, the least number first.
fn fill_set(
    first: &[u8; MAX_JOBS],
    last: &[u8; MAX_JOBS],
    set: JobSet,
    shares: &mut [u32],
    room: &mut [u64; MAX_INTERVALS],
    holders: &mut [u64; SET_WORDS],
    left: &mut [u64; MAX_JOBS],
    jobs: usize,
)
    requires windows_pass { WindowsPass jobs first.now last.now shares.old room.old holders.old left.old }
    requires by_index { (j : ℕ) → is_member set j ≡ true → j < jobs }
    ensures { WindowsPassed jobs first.now last.now
        shares.old room.old holders.old left.old
        shares.new room.new holders.new left.new }
{
    let mut rest = set;
    while !rest.is_empty() {
        let job = rest.least();
        let turn = Turn {
            job,
            jobs,
            left: left[job],
        };
        left[job] = fill_job(first, last, shares, room, holders, turn);
        rest = rest.without(job);
    }
}

// Fills the window of a job, and answers how many of its cycles are left then.
fn fill_job(
    first: &[u8; MAX_JOBS],
    last: &[u8; MAX_JOBS],
    shares: &mut [u32],
    room: &mut [u64; MAX_INTERVALS],
    holders: &mut [u64; SET_WORDS],
    turn: Turn,
) -> u64
    requires { TurnFill first.now last.now shares.old room.old holders.old turn }
    ensures { TurnFilled first.now last.now shares.old room.old holders.old
        shares.new room.new holders.new turn result }
{
    if turn.left == 0 {
        return 0;
    }
    let job = turn.job;
    fill_range(
        shares,
        room,
        holders,
        turn,
        first[job] as usize,
        last[job] as usize,
    )
}

// Fills the intervals from start up to, not including, end, in which a job is open, and answers how many of its cycles are left.
fn fill_range(
    shares: &mut [u32],
    room: &mut [u64; MAX_INTERVALS],
    holders: &mut [u64; SET_WORDS],
    turn: Turn,
    start: usize,
    end: usize,
) -> u64
    requires { RangeFill shares.old room.old holders.old turn start end }
    ensures { RangeFilled shares.old room.old holders.old
        shares.new room.new holders.new turn start end result }
{
    let mut left = turn.left;
    for interval in start..end {
        if left == 0 {
            return left;
        }
        let rest = Turn {
            job: turn.job,
            jobs: turn.jobs,
            left,
        };
        left = fill_interval(shares, room, holders, rest, interval);
    }
    left
}

// Fills one interval, and answers how many of the job's cycles are left.
fn fill_interval(
    shares: &mut [u32],
    room: &mut [u64; MAX_INTERVALS],
    holders: &mut [u64; SET_WORDS],
    turn: Turn,
    interval: usize,
) -> u64
    requires range_fill { RangeFill shares.old room.old holders.old turn interval (interval + 1) }
    requires left_nonzero { 0 < turn.left }
    ensures { RangeFilled shares.old room.old holders.old
        shares.new room.new holders.new turn interval (interval + 1) result }
{
    let free = room[interval];
    if free == 0 {
        return turn.left;
    }
    let amount = free.min(turn.left);
    put(
        shares,
        holders,
        turn.jobs,
        turn.job,
        interval,
        amount as u32,
    );
    room[interval] = free - amount;
    turn.left - amount
}
