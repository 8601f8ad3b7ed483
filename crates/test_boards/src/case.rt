// A case: the tables of its line in bytes, the boards with them, and what the boards have in common.
ghost use Rattle.std.specs.Prelude.{◌≤◌, length};

use crate::board::check_board;
use crate::common::{no_boards, with_board};
use crate::print;
use test_support::encode::{ROOM, encode, encode_marks};
use test_support::text::{next, number};

pub(crate) fn case(line: &[u8]) {
    site_in(&mut [0; ROOM], &mut [0; ROOM], line);
}

// The job table and the mark table in bytes. Before them stand the name and two lengths.
fn site_in(job_bytes: &mut [u8], mark_bytes: &mut [u8], line: &[u8]) {
    let second = next(line, next(line, 0));
    let jobs = encode(job_bytes, 4, line, next(line, second));
    let marks = encode_marks(mark_bytes, line, jobs.end);
    let job_length = jobs.length;
    let mark_length = marks.length;
    plan_in(
        &job_bytes[..job_length],
        &mark_bytes[..mark_length],
        &mut [0; ROOM],
        &mut [0; ROOM],
        line,
        marks.end,
    );
}

// The plan and the price list in bytes, from a place of the line on. Their lengths stand after the name, and need not be
// those of their numbers.
fn plan_in(
    jobs: &[u8],
    marks: &[u8],
    plan_bytes: &mut [u8],
    price_bytes: &mut [u8],
    line: &[u8],
    place: usize,
)
    requires { place ≤ length line.now }
{
    let first = next(line, 0);
    let second = next(line, first);
    let plan = encode(plan_bytes, 2, line, place);
    let prices = encode(price_bytes, 1, line, plan.end);
    let plan_length = io::count(number(line, first) as isize, plan_bytes);
    let price_length = io::count(number(line, second) as isize, price_bytes);
    boards(
        jobs,
        marks,
        &plan_bytes[..plan_length],
        &price_bytes[..price_length],
        line,
        prices.end,
    );
}

// The boards from a place of the line on.
fn boards(jobs: &[u8], marks: &[u8], plan: &[u8], prices: &[u8], line: &[u8], first: usize)
    requires { first ≤ length line.now }
{
    let mut common = no_boards();
    let mut place = first;
    while place < line.len() {
        let board = check_board(
            &mut [0; ROOM],
            jobs,
            marks,
            plan,
            prices,
            line,
            place,
            next(line, place),
        );
        common = with_board(common, board);
        place = board.end;
    }
    print::common(line, common);
}
