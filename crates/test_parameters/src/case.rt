// A case: its name, the tables of its line in bytes, and what is asked with them.
ghost use Rattle.std.specs.Prelude.{◌≤◌, length};

use crate::{ask, level_table, planned, touched, window};
use test_support::encode::{ROOM, encode_site};
use test_support::show;
use test_support::text::{MAX_NUMBERS, next, read_numbers};

pub(crate) fn case(line: &[u8]) {
    let word = next(line, 0);
    if word < line.len() {
        show::words_to(line, 0);
        let numbers = read_numbers(line, next(line, word));
        let values = numbers.values;
        site_in(
            &mut [0; ROOM],
            &mut [0; ROOM],
            &mut [0; ROOM],
            line,
            numbers.end,
            line[word],
            values,
        );
        show::end();
    }
}

// The tables of the site in bytes, from a place of the line on.
fn site_in(
    level_bytes: &mut [u8],
    job_bytes: &mut [u8],
    mark_bytes: &mut [u8],
    line: &[u8],
    place: usize,
    word: u8,
    values: [u32; MAX_NUMBERS],
)
    requires { place ≤ length line.now }
{
    let tables = encode_site(level_bytes, job_bytes, mark_bytes, line, place);
    let levels = tables.levels;
    let jobs = tables.jobs;
    let marks = tables.marks;
    question(
        &level_bytes[..levels],
        &job_bytes[..jobs],
        &mark_bytes[..marks],
        line,
        tables.end,
        word,
        values,
    );
}

// What the word asks. The tables that are not a site's stand from a place of the line on.
fn question(
    levels: &[u8],
    jobs: &[u8],
    marks: &[u8],
    line: &[u8],
    place: usize,
    word: u8,
    values: [u32; MAX_NUMBERS],
)
    requires { place ≤ length line.now }
{
    match word {
        b'i' => level_table::setting(levels, values),
        b'w' => level_table::working(levels, values),
        b's' => window::spare(levels, jobs, values),
        b'c' => ask::case(levels, jobs, marks, line, place, values),
        b't' => touched::case(jobs, marks, line, place, values),
        _ => planned::case(levels, jobs, marks, line, place, values),
    }
}
