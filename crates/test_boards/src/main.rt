// Checks one plan with its price list on several boards, which are level tables, and prints one line a board: the name of the
// case and that of the board, its working frequencies, or that its table is not read, and the energy figure or the refusal.
// After the boards of a case a line says whether all of them that are read have the same working frequencies, and whether they
// have the same answer: the plan is accepted, with any figures, or refused with one number and place.
// The cases are the lines of the file stdin: a name, how many bytes the plan and the price list have, after a word each the
// numbers of a job table, a mark table, a plan and a price list, and then the boards; where the mark table is left out, there
// are no marks. A board has a name and, after the word levels, the numbers of a level table.
// A table's numbers are the count, and then the windows and the cycles, the marks, or the frequencies and the voltages. A
// plan's have 16 bits: N, S, the cells, and each step's cycles as a lower and an upper half. A price list's are N and then
// bytes: four for each interval's end, and the prices.
#![tactic(auto)]

mod board;
mod case;
mod common;
mod print;

use case::case;
use test_support::text::{STDIN, each_line};

fn main() {
    let mut text = io::large_buffer();
    let length = io::read_full(STDIN, &mut text);
    each_line(&text[..length], case);
}
