// Plans sites, and prints what is answered and written, one line a case: its name, and the number of intervals and the
// energy figure, the overfull window and its spare, or the refusal; what the check answers for exactly the bytes written;
// whether the rest of the buffers is kept, and whether the shares are those of the plan's steps.
// The cases are the lines of the file stdin: a name, a word, the lengths of the three buffers that are lent, and after a
// word each the numbers of a level table, of a job table and of a mark table; where the mark table is left out, there are no
// marks. A table's numbers are the count, and then the frequencies and the voltages, the windows and the cycles, or the marks.
// The word says what is printed besides. It is steps where the plan of least energy is unique: the steps in cell order
// and the prices. It is prices where all plans of least energy have the same smallest prices, and figure otherwise.
#![tactic(auto)]

mod buffers;
mod case;
mod print;
mod written;

use case::case;
use test_support::text::STDIN;

fn main() {
    let mut text = io::large_buffer();
    let length = io::read_full(STDIN, &mut text);
    cases(&text[..length]);
}

fn cases(text: &[u8]) {
    for line in text.split_inclusive(|&byte| byte == b'\n') {
        case(line.strip_suffix(b"\n").unwrap_or(line));
    }
}
