// Plans sites with plan buffers at the length wanted, just below it and far from it, and prints one line a case: its name, and the
// numbers of intervals and steps and the energy figure, the steps in cell order and the prices; or the refusal; and whether the rest of
// the buffers is kept.
// The cases are the lines of the file stdin: a name, the length of the plan buffer that is lent, and after a word each the numbers of a
// level table, of a job table and of a mark table; where the mark table is left out, there are no marks. A table's numbers are the count,
// and then the frequencies and the voltages, the windows and the cycles, or the marks. The buffers for prices and shares are long enough.
#![tactic(auto)]

mod case;
mod printed;

use case::case;
use test_support::text::STDIN;

fn main() {
    let mut text = io::large_buffer();
    let length = io::read_full(STDIN, &mut text);
    cases(&text[..length]);
}

fn cases(text: &[u8]) {
    for line in text.split_inclusive(|&byte| byte == b'\n') {
        case(line.strip_suffix(b"\n").unwrap_or(line));
    }
}
