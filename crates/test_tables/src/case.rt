// A case: a built-in table, or the table of its line in bytes, which is read.
use crate::{built_in, read};
use test_support::encode::{ROOM, encode};
use test_support::show;
use test_support::text::{next, number};

pub(crate) fn case(line: &[u8]) {
    if line.len() > 0 {
        match line[0] {
            b'f' => built_in::first(),
            b's' => built_in::second(),
            kind => table_in(&mut [0; ROOM], line, kind),
        }
    }
}

// Prints the kind, the name, and what is answered for the table's first bytes, or the table with zeros after it.
fn table_in(bytes: &mut [u8], line: &[u8], kind: u8) {
    let name = next(line, 0);
    let length = next(line, name);
    let width = next(line, length);
    encode(bytes, number(line, width) as usize, line, width);
    show::words_to(line, name);
    let count = io::count(number(line, length) as isize, bytes);
    match kind {
        b'l' => read::levels(&bytes[..count]),
        b'm' => read::marks(&bytes[..count]),
        _ => read::jobs(&bytes[..count]),
    }
    show::end();
}
