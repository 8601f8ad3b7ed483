// Checks plans and their price lists, and walks plans, and prints what is answered, one line a case: its name, and the
// energy figure, the steps, or the refusal.
// The cases are the lines of the file stdin. A line to check has a name, the word check, how many bytes the plan and the
// price list have, and after a word each the numbers of a level table, a job table, a mark table, a plan and a price list;
// where the mark table is left out, there are no marks. A line to walk has a name, the word walk, the plan's length, and the
// plan. A line with the word step has a position after the length.
// A table's numbers are the count, and then the frequencies and the voltages, the windows and the cycles, or the marks. A
// plan's have 16 bits: N, S, the cells, and each step's cycles as a lower and an upper half. A price list's are N and then
// bytes: four for each interval's end, and the prices.
#![tactic(auto)]

mod case;
mod check;
mod walk;

use case::case;
use test_support::text::{STDIN, TEXT_ROOM, each_line};

fn main() {
    let mut text = [0; TEXT_ROOM];
    let length = io::read_full(STDIN, &mut text);
    each_line(&text[..length], case);
}
