// A case: the tables of its line in bytes, and planning with a plan buffer of the length that stands there.
ghost use Rattle.std.specs.Prelude.{◌≤◌, length};

use crate::printed;
use parameters::as_given;
use test_support::buffers::{PLAN_ROOM, UNWRITTEN, UNWRITTEN_NUMBER};
use test_support::encode::{ROOM, encode_site};
use test_support::show;
use test_support::text::{next, number};

// Room for the longest price list and the largest shares table, of 64 jobs and 135 intervals, and for more after them.
const PRICE_ROOM: usize = 680;

const SHARE_ROOM: usize = 8_656;

pub(crate) fn case(line: &[u8]) {
    let place = next(line, 0);
    if place < line.len() {
        show::words_to(line, 0);
        tables_in(&mut [0; ROOM], &mut [0; ROOM], &mut [0; ROOM], line, place);
        show::end();
    }
}

fn tables_in(
    level_bytes: &mut [u8],
    job_bytes: &mut [u8],
    mark_bytes: &mut [u8],
    line: &[u8],
    place: usize,
)
    requires { place ≤ length line.now }
{
    let tables = encode_site(level_bytes, job_bytes, mark_bytes, line, next(line, place));
    let levels = tables.levels;
    let jobs = tables.jobs;
    let marks = tables.marks;
    site(
        &level_bytes[..levels],
        &job_bytes[..jobs],
        &mark_bytes[..marks],
        &mut [UNWRITTEN; PLAN_ROOM],
        &mut [UNWRITTEN; PRICE_ROOM],
        &mut [UNWRITTEN_NUMBER; SHARE_ROOM],
        number(line, place),
    );
}

fn site(
    levels: &[u8],
    jobs: &[u8],
    marks: &[u8],
    plan: &mut [u8],
    prices: &mut [u8],
    shares: &mut [u32],
    length: u32,
) {
    let lent = io::count(length as isize, plan);
    let given = as_given(levels);
    match planning::plan(
        levels,
        jobs,
        marks,
        given,
        &mut plan[..lent],
        prices,
        shares,
    ) {
        Ok(made) => printed::plan(plan, prices, made),
        Err(why) => {
            printed::no_answer(why);
            printed::nothing(plan, prices, shares);
        }
    }
}
