// A case: a plan that is checked with its price list, or walked, or asked for one step.
use crate::{check, walk};
use test_support::encode::ROOM;
use test_support::show;
use test_support::text::next;

pub(crate) fn case(line: &[u8]) {
    let kind = next(line, 0);
    if kind < line.len() {
        show::words_to(line, 0);
        match line[kind] {
            b'c' => check::case(line, kind),
            b's' => walk::step_case(&mut [0; ROOM], line, kind),
            _ => walk::case(&mut [0; ROOM], line, kind),
        }
        show::end();
    }
}
