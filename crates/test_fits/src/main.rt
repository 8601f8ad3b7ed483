// Asks whether plans fit, the first half of the check, and prints one line a case: its name, the energy figure of a plan that fits
// or the refusal, and what the whole check answers for the same tables with a price list.
// The cases are the lines of the file stdin: a name, how many bytes the plan and the price list have, and after a word each the
// numbers of a level table, a job table, a mark table, a plan and a price list; where the mark table is left out, there are no
// marks. Where the price list is left out its length is 0, and the check is lent no bytes for it.
// A table's numbers are the count, and then the frequencies and the voltages, the windows and the cycles, or the marks. A
// plan's have 16 bits: N, S, the cells, and each step's cycles as a lower and an upper half. A price list's are N and then
// bytes: four for each interval's end, and the prices.
#![tactic(auto)]

mod case;

use case::case;
use test_support::text::{STDIN, each_line};

fn main() {
    let mut text = io::large_buffer();
    let length = io::read_full(STDIN, &mut text);
    each_line(&text[..length], case);
}
