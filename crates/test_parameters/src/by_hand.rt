// A site, and the tables that its parameters make of it, worked out by hand.
ghost use Rattle.std.specs.Prelude.{◌≤◌, length};

use crate::planned::{Request, WRITTEN_ROOM, make};
use check::same;
use parameters::as_given;
use test_support::buffers::{UNWRITTEN, UNWRITTEN_NUMBER};
use test_support::encode::{ROOM, encode};
use test_support::show;

// The site, and where the line goes on from a place the tables altered by hand.
pub(crate) fn site_and_altered(
    levels: &[u8],
    jobs: &[u8],
    marks: &[u8],
    request: Request,
    plan: &mut [u8],
    prices: &mut [u8],
    line: &[u8],
    place: usize,
)
    requires { place ≤ length line.now }
{
    make(
        levels,
        jobs,
        marks,
        request,
        plan,
        prices,
        &mut [UNWRITTEN_NUMBER; WRITTEN_ROOM],
    );
    if place < line.len() {
        show::words(b" altered");
        by_hand(
            &mut [0; ROOM],
            &mut [0; ROOM],
            marks,
            request,
            plan,
            prices,
            line,
            place,
        );
    }
}

// The level table and the job table altered by hand, in bytes.
fn by_hand(
    level_bytes: &mut [u8],
    job_bytes: &mut [u8],
    marks: &[u8],
    request: Request,
    plan: &[u8],
    prices: &[u8],
    line: &[u8],
    place: usize,
)
    requires { place ≤ length line.now }
{
    let levels = encode(level_bytes, 2, line, place);
    let jobs = encode(job_bytes, 4, line, levels.end);
    let level_length = levels.length;
    let job_length = jobs.length;
    compare(
        &level_bytes[..level_length],
        &job_bytes[..job_length],
        marks,
        request,
        plan,
        prices,
        &mut [UNWRITTEN; WRITTEN_ROOM],
        &mut [UNWRITTEN; WRITTEN_ROOM],
    );
}

// Plans tables as they are given, and compares the buffers whole with others.
fn compare(
    levels: &[u8],
    jobs: &[u8],
    marks: &[u8],
    request: Request,
    plan: &[u8],
    prices: &[u8],
    plan_again: &mut [u8],
    prices_again: &mut [u8],
) {
    let given = as_given(levels);
    make(
        levels,
        jobs,
        marks,
        Request {
            planning: given,
            asking: given,
            plan: request.plan,
            prices: request.prices,
            shares: request.shares,
        },
        plan_again,
        prices_again,
        &mut [UNWRITTEN_NUMBER; WRITTEN_ROOM],
    );
    let same_plan = same(plan, plan_again);
    let same_prices = same(prices, prices_again);
    print_same(same_plan & same_prices);
}

fn print_same(same: bool) {
    if same {
        show::words(b" same bytes");
    } else {
        show::words(b" other bytes");
    }
}
