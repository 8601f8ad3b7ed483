// Calls the operations with a site's parameters, and prints one line a case: its name, and each answer or refusal.
// The cases are the lines of the file stdin: a name, a word for what is asked, numbers, and after a word each the numbers of a
// level table, a job table and a mark table; where the mark table is left out, there are no marks. The parameters are three of
// the numbers: the highest running level allowed, the ticks kept free and the margin. The words, with the numbers and what is
// printed:
// - interval: the highest level, a length and a load. The setting; the line has a level table alone.
// - working: the highest level. The working frequencies, or that the table is not read; the line has a level table alone.
// - spare: the parameters, and the start and the end of a window. The spare.
// - check: the parameters, how many bytes are lent to ordering, and how many the plan and the price list have, which stand after
//   the tables. What the first half of the check, the check and ordering answer, and the ordered plan.
// - touching: free ticks and margin, the start and the end of a span, how many numbers of each list are lent, and how many bytes
//   the plan has, which stands after the tables. The lists and the nearest deadline. The level table is not asked for.
// - plan: the parameters that the site is planned with, those with which the plan is asked about, and how many bytes of a plan
//   and a price list and how many shares are lent. What planning answers, the shares and the prices; and then for the plan that
//   was written what is printed under check, and under touching for the whole time. A line may go on with the level table and the
//   job table as the parameters alter them, worked out apart: the same is then printed for those, planned and asked about as they
//   are given, and whether the same bytes were written.
// A table's numbers are the count, and then the frequencies and the voltages, the windows and the cycles, or the marks. A plan's
// have 16 bits: N, S, the cells, and each step's cycles as a lower and an upper half. A price list's are N and then bytes: four
// for each interval's end, and the prices.
// What stands in the file stdout was worked out from documents 01 and 02, without this project's code: refusals by going through
// their conditions in order, and plans by trying all ways to share out the cycles of the jobs, of which exactly one is of least
// energy in each site that is planned here.
#![tactic(auto)]

mod ask;
mod by_hand;
mod case;
mod level_table;
mod planned;
mod touched;
mod window;

use case::case;
use test_support::text::{STDIN, TEXT_ROOM};

fn main() {
    let mut text = [0; TEXT_ROOM];
    let length = io::read_full(STDIN, &mut text);
    cases(&text[..length]);
}

fn cases(text: &[u8]) {
    for line in text.split_inclusive(|&byte| byte == b'\n') {
        case(line.strip_suffix(b"\n").unwrap_or(line));
    }
}
