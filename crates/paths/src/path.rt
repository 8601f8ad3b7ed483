// The path from an interval with room back to the job being placed: in each interval the first reached job that is open
// there moves in, from its source, and the path goes on there.
ghost use Rattle.std.specs.Prelude.{◌≡◌, ℕ, ◌≤◌, length};
ghost use Rattle.model.specs.Limits.{max_jobs};
ghost use Rattle.workloads.specs.Placement.{Problem};
ghost use Rattle.workloads.specs.Arrays.{numbers_in};
ghost use Rattle.searching.specs.Reaching.{state_of, with_windows};
ghost use Rattle.paths.specs.Paths.{first_open, SomeOpen};
ghost use Rattle.paths.specs.FilledTargets.{WindowsFill, WindowsFilled};
ghost use Rattle.paths.specs.Moves.{CanFind, WindowsWalk, WindowsPass, RouteMove, RouteMoved};

use crate::Turn;
use crate::shares::{put, share_of, take};
use job_sets::SET_WORDS;
use model::{MAX_INTERVALS, MAX_JOBS};
use searching::Found;

// Moves as many of a job's cycles as possible along the path from a target with room, and answers how many.
pub fn fill(
    first: &[u8; MAX_JOBS],
    last: &[u8; MAX_JOBS],
    shares: &mut [u32],
    room: &mut [u64; MAX_INTERVALS],
    holders: &mut [u64; SET_WORDS],
    reached: &[u8; MAX_JOBS],
    source: &[u8; MAX_JOBS],
    found: Found,
    turn: Turn,
) -> u64
    requires { WindowsFill first.now last.now shares.old room.old holders.old (state_of found reached.now source.now) turn }
    ensures { WindowsFilled first.now last.now
        shares.old room.old holders.old shares.new room.new holders.new
        (state_of found reached.now source.now) turn result }
{
    let target = found.target;
    let free = room[target];
    let most = free.min(turn.left);
    let mut route = [0; MAX_JOBS];
    let amount = path_limit(
        first, last, shares, reached, source, found, turn.jobs, most, &mut route,
    );
    move_along(
        shares,
        holders,
        reached,
        source,
        &route,
        found,
        turn.jobs,
        amount as u32,
    );
    room[target] -= amount;
    amount
}

// How many cycles can go along the path, of the most that are wanted. The route gets the numbers of the reached jobs on the
// path, the last of which is 0, so that the path is not looked for again.
fn path_limit(
    first: &[u8; MAX_JOBS],
    last: &[u8; MAX_JOBS],
    shares: &[u32],
    reached: &[u8; MAX_JOBS],
    source: &[u8; MAX_JOBS],
    found: Found,
    jobs: usize,
    most: u64,
    route: &mut [u8; MAX_JOBS],
) -> u64
    requires windows_walk { WindowsWalk jobs first.now last.now shares.now (state_of found reached.now source.now) }
    requires le_most { (1 ≤ most) × (length route.old ≡ max_jobs) }
    ensures { (1 ≤ result) × (result ≤ most)
        × WindowsPass jobs first.now last.now shares.now route.new
        (state_of found reached.now source.now) result }
{
    let mut limit = most;
    let mut steps = 0;
    let mut s = first_open(first, last, reached, found.target);
    route[0] = s as u8;
    while s > 0 {
        let gap = source[s] as usize;
        let share = share_of(shares, jobs, gap, reached[s] as usize);
        limit = limit.min(share);
        s = first_open(first, last, reached, gap);
        steps += 1;
        route[steps] = s as u8;
    }
    limit
}

// Moves an amount along the path that a route holds, and so places it. Only the load of the target changes.
fn move_along(
    shares: &mut [u32],
    holders: &mut [u64; SET_WORDS],
    reached: &[u8; MAX_JOBS],
    source: &[u8; MAX_JOBS],
    route: &[u8; MAX_JOBS],
    found: Found,
    jobs: usize,
    amount: u32,
)
    requires { RouteMove jobs shares.old holders.old route.now (state_of found reached.now source.now) amount }
    ensures { RouteMoved jobs shares.old holders.old route.now
        shares.new holders.new (state_of found reached.now source.now) amount }
{
    let mut gap = found.target;
    let mut step = 0;
    let mut s = route[0] as usize;
    while s > 0 {
        let job = reached[s] as usize;
        put(shares, holders, jobs, job, gap, amount);
        gap = source[s] as usize;
        take(shares, holders, jobs, job, gap, amount);
        step += 1;
        s = route[step] as usize;
    }
    put(shares, holders, jobs, reached[0] as usize, gap, amount);
}

// The number of the first reached job that is open in an interval, in which one is.
fn first_open(
    first: &[u8; MAX_JOBS],
    last: &[u8; MAX_JOBS],
    reached: &[u8; MAX_JOBS],
    interval: usize,
) -> usize
    requires { CanFind first.now last.now reached.now interval }
    ensures { (p : Problem) (jobs count : ℕ)
        → SomeOpen (with_windows p jobs first.now last.now) count (numbers_in reached.now) interval
        → result ≡ first_open (with_windows p jobs first.now last.now) count (numbers_in reached.now) interval }
{
    let here = interval as u8;
    // no range: one is open, so that the search needs no end
    let mut s = 0;
    loop {
        let job = reached[s] as usize;
        if first[job] <= here {
            if here < last[job] {
                return s;
            }
        }
        s += 1;
    }
}
