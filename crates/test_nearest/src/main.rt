// Lists the jobs with their rooms, and prints what is answered and written, one line a case: its name, and the length of the list and
// its numbers, for each job its number and its room; the overfull window and its spare; or the refusal; and whether the rest of the list
// is as it was.
// The cases are the lines of the file stdin: a name, a word, how many numbers of the list are lent, the highest running level allowed,
// the free ticks, the margin, and after a word each the numbers of a level table and of a job table. A table's numbers are the count, and
// then the frequencies and the voltages, or the windows and the cycles.
// The word is list, or plan where each room is tried by planning too, and what planning answers is printed behind the list, for each job
// twice: for the set whose job has the cycles of its room more, and for the set whose job has one cycle more than that. Such a case has a
// margin of 0, since the cycles of the room come on top of those with the margin.
#![tactic(auto)]

mod case;
mod printed;
mod tried;

use case::case;
use test_support::text::STDIN;

fn main() {
    let mut text = io::large_buffer();
    let length = io::read_full(STDIN, &mut text);
    cases(&text[..length]);
}

fn cases(text: &[u8]) {
    for line in text.split_inclusive(|&byte| byte == b'\n') {
        case(line.strip_suffix(b"\n").unwrap_or(line));
    }
}
