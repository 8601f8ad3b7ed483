// Lays out the rounds of task tables that lie at a limit of document 02's Change 1 or just past it, and prints what is
// answered and written, one line a case: its name, and the job table's length and the multiple, or the refusal; whether the
// buffer is as it was, past the job table or whole; and the jobs that are read from exactly the bytes written.
// The cases are the lines of the file stdin: a name, how many bytes of the buffer and how many of the task table are lent,
// and the table's numbers: the count, the phase and the period of each task, and then the deadline and the cycles of each.
#![tactic(auto)]

mod case;
mod print;

use case::case;
use test_support::text::{STDIN, each_line};

fn main() {
    let mut text = io::large_buffer();
    let length = io::read_full(STDIN, &mut text);
    each_line(&text[..length], case);
}
