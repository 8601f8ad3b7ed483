// Orders a plan of a line, and prints what is answered, and what is then in the buffer.
ghost use Rattle.std.specs.Prelude.{◌≤◌, length};

use crate::print;
use check::same;
use parameters::as_given;
use test_support::buffers::{UNWRITTEN, kept};
use test_support::encode::{ROOM, encode_tables};
use test_support::text::{next, number};
use test_support::{show, written};

// Room for the longest plan that a line can have, and for bytes after it.
pub(crate) const ORDERED_ROOM: usize = 1040;

// Orders the plan whose lengths and tables stand at a place, and answers where they end in the line.
pub(crate) fn order(ordered: &mut [u8], line: &[u8], room: usize) -> usize
    requires { room ≤ length line.now }
    ensures { result ≤ length line.now }
{
    tables_in(
        &mut [0; ROOM],
        &mut [0; ROOM],
        &mut [0; ROOM],
        &mut [0; ROOM],
        &mut [0; ROOM],
        line,
        room,
        ordered,
    )
}

// The tables in bytes. How many bytes of the buffer are lent stands before the lengths of the plan and the price list.
fn tables_in(
    level_bytes: &mut [u8],
    job_bytes: &mut [u8],
    mark_bytes: &mut [u8],
    plan_bytes: &mut [u8],
    price_bytes: &mut [u8],
    line: &[u8],
    room: usize,
    ordered: &mut [u8],
) -> usize
    requires { room ≤ length line.now }
    ensures { result ≤ length line.now }
{
    let tables = encode_tables(
        level_bytes,
        job_bytes,
        mark_bytes,
        plan_bytes,
        price_bytes,
        line,
        next(line, room),
    );
    let levels = tables.levels;
    let jobs = tables.jobs;
    let marks = tables.marks;
    let plan = tables.plan;
    let prices = tables.prices;
    order_plan(
        &level_bytes[..levels],
        &job_bytes[..jobs],
        &mark_bytes[..marks],
        &plan_bytes[..plan],
        &price_bytes[..prices],
        ordered,
        number(line, room),
    );
    tables.end
}

// Lends the first bytes of the buffer, and prints what is then in the whole of it.
fn order_plan(
    levels: &[u8],
    jobs: &[u8],
    marks: &[u8],
    plan: &[u8],
    prices: &[u8],
    ordered: &mut [u8],
    room: u32,
) {
    let lent = io::count(room as isize, ordered);
    let length = order_into(levels, jobs, marks, plan, prices, &mut ordered[..lent]);
    let written = io::count(length as isize, ordered);
    show::words(b" given");
    checked(levels, jobs, marks, plan, prices);
    show::rest(kept(ordered, written));
    if written > 0 {
        print_written(
            levels,
            jobs,
            marks,
            &ordered[..written],
            prices,
            &mut [UNWRITTEN; ORDERED_ROOM],
        );
    }
}

// The bytes that were written: the check of them, what ordering them again answers, and their numbers.
fn print_written(
    levels: &[u8],
    jobs: &[u8],
    marks: &[u8],
    plan: &[u8],
    prices: &[u8],
    again: &mut [u8],
) {
    show::words(b" written");
    checked(levels, jobs, marks, plan, prices);
    show::words(b" again");
    order_into(levels, jobs, marks, plan, prices, again);
    written::plan(plan);
}

// Prints what ordering answers, and whether the plan comes out as it was. Answers how many bytes are written.
fn order_into(
    levels: &[u8],
    jobs: &[u8],
    marks: &[u8],
    plan: &[u8],
    prices: &[u8],
    ordered: &mut [u8],
) -> u32 {
    let given = as_given(levels);
    let length = print::answer(ordering::order(levels, jobs, marks, given, plan, prices, ordered));
    let written = io::count(length as isize, ordered);
    if written > 0 {
        print::unchanged(same(plan, &ordered[..written]));
    }
    length
}

fn checked(levels: &[u8], jobs: &[u8], marks: &[u8], plan: &[u8], prices: &[u8]) {
    let given = as_given(levels);
    print::checked(audit::check(levels, jobs, marks, given, plan, prices));
}
