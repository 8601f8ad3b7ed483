// Lists what touches spans of ticks, and prints what is answered and written, one line a call: the name of the site and that
// of the call, and the refusal; or the three lists, each with its length, and the nearest deadline or none. At the end stands
// whether the lent lists, past what was written, are as they were.
// The sites are the lines of the file stdin: a name, how many bytes of the job table and of the plan are lent, after a word
// each the numbers of a job table, of a mark table and of a plan, and then the calls; where the mark table is left out, there
// are no marks. A call has a name, the start and the end of a span, and how many numbers of each list are lent.
// A job table's numbers are the count, and then the windows and the cycles, a mark table's the count and then the marks. A
// plan's have 16 bits: N, S, the cells, and each step's cycles as a lower and an upper half.
#![tactic(auto)]

mod call;
mod print;
mod site;

use site::site;
use test_support::text::{STDIN, TEXT_ROOM, each_line};

fn main() {
    let mut text = [0; TEXT_ROOM];
    let length = io::read_full(STDIN, &mut text);
    each_line(&text[..length], site);
}
