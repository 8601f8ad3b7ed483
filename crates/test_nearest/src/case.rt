// A case: the tables of its line in bytes, the list that is lent, and what is then in it.
ghost use Rattle.std.specs.Prelude.{◌≤◌, length};

use crate::{printed, tried};
use model::Parameters;
use nearest::nearest;
use test_support::buffers::{UNWRITTEN_NUMBER, within_numbers};
use test_support::encode::{ROOM, encode};
use test_support::show;
use test_support::text::{MAX_NUMBERS, next, read_numbers};

// Room for the longest list, of 64 jobs, and for numbers after it.
const LIST_ROOM: usize = 144;

pub(crate) fn case(line: &[u8]) {
    let word = next(line, 0);
    if word < line.len() {
        show::words_to(line, 0);
        let numbers = read_numbers(line, next(line, word));
        let values = numbers.values;
        tables_in(
            &mut [0; ROOM],
            &mut [0; ROOM],
            line,
            numbers.end,
            line[word],
            values,
        );
        show::end();
    }
}

// The tables in bytes, from a place of the line on. The numbers are the length of the list that is lent, and the parameters.
fn tables_in(
    level_bytes: &mut [u8],
    job_bytes: &mut [u8],
    line: &[u8],
    place: usize,
    word: u8,
    values: [u32; MAX_NUMBERS],
)
    requires { place ≤ length line.now }
{
    let level_table = encode(level_bytes, 2, line, place);
    let job_table = encode(job_bytes, 4, line, level_table.end);
    let levels = level_table.length;
    let jobs = job_table.length;
    site(
        &level_bytes[..levels],
        &mut job_bytes[..jobs],
        Parameters {
            highest: values[1],
            free: values[2],
            margin: values[3],
        },
        &mut [UNWRITTEN_NUMBER; LIST_ROOM],
        values[0],
        word,
    );
}

// Lends a part of the list, and prints what is then in the whole of it.
fn site(
    levels: &[u8],
    jobs: &mut [u8],
    parameters: Parameters,
    list: &mut [u32],
    room: u32,
    word: u8,
) {
    let lent = within_numbers(room as usize, list);
    let answer = nearest(levels, jobs, parameters, &mut list[..lent]);
    let length = printed::answer(answer, list);
    let written = within_numbers(length as usize, list);
    if word == b'p' {
        tried::rooms(levels, jobs, parameters, &list[..written]);
    }
}
