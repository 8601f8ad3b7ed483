// Asks for the spare of windows, and prints what is answered, one line a case: its name, and the spare or the refusal.
// The cases are the lines of the file stdin: a name, the start and the end of a window, the word levels and the numbers
// of a level table, the word jobs and the numbers of a job table. A table's numbers are the count, and then the
// frequencies and the voltages, or the windows and the cycles.
#![tactic(auto)]

mod case;

use case::case;
use test_support::text::{STDIN, each_line};

fn main() {
    let mut text = io::large_buffer();
    let length = io::read_full(STDIN, &mut text);
    each_line(&text[..length], case);
}
