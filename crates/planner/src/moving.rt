// Placing what is left of the jobs along paths, at a band.
ghost use Rattle.planner.specs.BandPasses.{WindowsPlace, WindowsPlaced, TurnRaise, TurnRaised, WindowsRaise, WindowsRaised};

use job_sets::SET_WORDS;
use model::{MAX_INTERVALS, MAX_JOBS};
use paths::{Turn, fill};
use prices::{is_below, raise};
use searching::search;

// How many cycles of a job are left. Where some are, the intervals from `start` up to, not including, `end` are all that a
// search reaches from the job, and none of them has room.
#[derive(Clone, Copy)]
pub struct Rest {
    pub left: u64,
    pub start: usize,
    pub end: usize,
}

// Places along paths what is left of the jobs. Where some is left after that, no price of the job's window is the band's. On
// this alone it rests that all jobs are placed at least price.
pub(crate) fn move_jobs(
    first: &[u8; MAX_JOBS],
    last: &[u8; MAX_JOBS],
    shares: &mut [u32],
    room: &mut [u64; MAX_INTERVALS],
    holders: &mut [u64; SET_WORDS],
    prices: &mut [u8; MAX_INTERVALS],
    left: &mut [u64; MAX_JOBS],
    jobs: usize,
    band: u8,
)
    requires { WindowsRaise jobs first.now last.now shares.old room.old holders.old prices.old left.old band }
    ensures { WindowsRaised jobs first.now last.now
        shares.old room.old holders.old prices.old left.old
        shares.new room.new holders.new prices.new left.new band jobs }
{
    for job in 0..jobs {
        let turn = Turn {
            job,
            jobs,
            left: left[job],
        };
        left[job] = move_job(first, last, shares, room, holders, prices, band, turn);
    }
}

// Places what is left of a job, where a price of its window is not above the band, and answers how many cycles are left then.
// Some are left only where no interval that is reached has room at the band; then the prices of all of them rise past it.
fn move_job(
    first: &[u8; MAX_JOBS],
    last: &[u8; MAX_JOBS],
    shares: &mut [u32],
    room: &mut [u64; MAX_INTERVALS],
    holders: &mut [u64; SET_WORDS],
    prices: &mut [u8; MAX_INTERVALS],
    band: u8,
    turn: Turn,
) -> u64
    requires { TurnRaise first.now last.now shares.old room.old holders.old prices.old band turn }
    ensures { TurnRaised first.now last.now
        shares.old room.old holders.old prices.old
        shares.new room.new holders.new prices.new band turn result }
{
    if turn.left == 0 {
        return 0;
    }
    let job = turn.job;
    if is_below(prices, first[job] as usize, last[job] as usize, band + 1) {
        let rest = move_cycles(first, last, shares, room, holders, turn);
        if rest.left == 0 {
            return 0;
        }
        raise(prices, rest.start, rest.end, band + 1);
        return rest.left;
    }
    turn.left
}

// Places cycles of a job along paths, until none are left or no interval that is reached has room.
fn move_cycles(
    first: &[u8; MAX_JOBS],
    last: &[u8; MAX_JOBS],
    shares: &mut [u32],
    room: &mut [u64; MAX_INTERVALS],
    holders: &mut [u64; SET_WORDS],
    turn: Turn,
) -> Rest
    requires { WindowsPlace first.now last.now shares.old room.old holders.old turn }
    ensures { WindowsPlaced first.now last.now shares.old room.old holders.old
        shares.new room.new holders.new turn result }
{
    let mut reached = [0; MAX_JOBS];
    let mut source = [0; MAX_JOBS];
    let mut left = turn.left;
    while left > 0 {
        let found = search(
            first,
            last,
            room,
            holders,
            turn.job,
            &mut reached,
            &mut source,
        );
        if found.target >= MAX_INTERVALS {
            return Rest {
                left,
                start: found.start,
                end: found.end,
            };
        }
        let rest = Turn {
            job: turn.job,
            jobs: turn.jobs,
            left,
        };
        left -= fill(
            first, last, shares, room, holders, &reached, &source, found, rest,
        );
    }
    Rest {
        left,
        start: 0,
        end: 0,
    }
}
