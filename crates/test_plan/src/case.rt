// A case: the tables of its line in bytes, and what planning answers and writes for them.
ghost use Rattle.std.specs.Prelude.{◌≤◌, length};

use crate::buffers::{Lengths, PRICE_ROOM, SHARE_ROOM, within_bytes};
use crate::{print, written};
use parameters::as_given;
use planning::WrittenPlan;
use spare::NoAnswer;
use test_support::buffers::{PLAN_ROOM, UNWRITTEN, UNWRITTEN_NUMBER, within_numbers};
use test_support::encode::{ROOM, encode_site};
use test_support::show;
use test_support::text::{next, number};

pub(crate) fn case(line: &[u8]) {
    let word = next(line, 0);
    if word < line.len() {
        show::words_to(line, 0);
        tables_in(
            &mut [0; ROOM],
            &mut [0; ROOM],
            &mut [0; ROOM],
            line,
            next(line, word),
            line[word],
        );
        show::end();
    }
}

// The tables in bytes, and the buffers. The lengths of the parts that are lent stand before the tables.
fn tables_in(
    level_bytes: &mut [u8],
    job_bytes: &mut [u8],
    mark_bytes: &mut [u8],
    line: &[u8],
    place: usize,
    word: u8,
)
    requires { place ≤ length line.now }
{
    let second = next(line, place);
    let third = next(line, second);
    let tables = encode_site(level_bytes, job_bytes, mark_bytes, line, next(line, third));
    let levels = tables.levels;
    let jobs = tables.jobs;
    let marks = tables.marks;
    let lent = Lengths {
        plan: number(line, place) as usize,
        prices: number(line, second) as usize,
        shares: number(line, third) as usize,
    };
    site(
        &level_bytes[..levels],
        &job_bytes[..jobs],
        &mark_bytes[..marks],
        &mut [UNWRITTEN; PLAN_ROOM],
        &mut [UNWRITTEN; PRICE_ROOM],
        &mut [UNWRITTEN_NUMBER; SHARE_ROOM],
        lent,
        word,
    );
}

// Lends a part of each buffer to planning, and prints what is then in the whole of them.
fn site(
    levels: &[u8],
    jobs: &[u8],
    marks: &[u8],
    plan: &mut [u8],
    prices: &mut [u8],
    shares: &mut [u32],
    lent: Lengths,
    word: u8,
) {
    let plan_length = within_bytes(lent.plan, plan);
    let price_length = within_bytes(lent.prices, prices);
    let share_length = within_numbers(lent.shares, shares);
    let answer = planning::plan(
        levels,
        jobs,
        marks,
        as_given(levels),
        &mut plan[..plan_length],
        &mut prices[..price_length],
        &mut shares[..share_length],
    );
    print_answer(levels, jobs, marks, plan, prices, shares, word, answer);
}

// What planning answered, and whether the rest of each buffer is as it was.
fn print_answer(
    levels: &[u8],
    jobs: &[u8],
    marks: &[u8],
    plan: &[u8],
    prices: &[u8],
    shares: &[u32],
    word: u8,
    answer: Result<WrittenPlan, NoAnswer>,
) {
    match answer {
        Ok(made) => {
            print::plan(made);
            written::print(levels, jobs, marks, plan, prices, shares, made, word);
        }
        Err(why) => {
            print::no_answer(why);
            print::rest(plan, prices, shares, nothing());
        }
    }
}

// Without a plan nothing is written.
fn nothing() -> Lengths {
    Lengths {
        plan: 0,
        prices: 0,
        shares: 0,
    }
}
