// Orders plans, and prints what is answered and written, one line a case: its name, and the length written and whether
// the plan came out changed, or the refusal; what the check answers for the plan as it was given; whether the buffer is as
// it was, past the plan or whole. Where a plan was written it prints what the check answers for exactly the bytes written,
// what ordering them again answers and whether they changed, and their numbers.
// The cases are the lines of the file stdin: a name, how many bytes of the buffer, the plan and the price list are lent,
// and after a word each the numbers of a level table, a job table, a mark table, a plan and a price list; where the mark table
// is left out, there are no marks. After the word and a line may have a second plan with all its tables, in the same form:
// whether the two plans come out equal is then printed at the end.
// A table's numbers are the count, and then the frequencies and the voltages, the windows and the cycles, or the marks. A
// plan's have 16 bits: N, S, the cells, and each step's cycles as a lower and an upper half. A price list's are N and then
// bytes: four for each interval's end, and the prices.
#![tactic(auto)]

mod case;
mod order;
mod print;

use case::case;
use test_support::text::STDIN;

fn main() {
    let mut text = io::large_buffer();
    let length = io::read_full(STDIN, &mut text);
    cases(&text[..length]);
}

fn cases(text: &[u8]) {
    for line in text.split_inclusive(|&byte| byte == b'\n') {
        case(line.strip_suffix(b"\n").unwrap_or(line));
    }
}
