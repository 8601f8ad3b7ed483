// Reads tables that lie at a limit of the documents or just past it, and prints what each reading answers, one line a case:
// the table's kind, the case's name, and the entries or the refusal.
// The cases are the lines of the file stdin: kind and name, how many bytes are read, the width of the numbers, the count,
// and the numbers, which are the frequencies and then the voltages, the windows and then the cycles, or the marks. The lines
// `first` and `second` ask for a built-in table.
#![tactic(auto)]

mod built_in;
mod case;
mod read;

use case::case;
use test_support::text::STDIN;

fn main() {
    let mut text = io::large_buffer();
    let length = io::read_full(STDIN, &mut text);
    cases(&text[..length]);
}

fn cases(text: &[u8]) {
    for line in text.split_inclusive(|&byte| byte == b'\n') {
        case(line.strip_suffix(b"\n").unwrap_or(line));
    }
}
