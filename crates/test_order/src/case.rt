// A case: a plan that is ordered, or two of them whose ordered bytes are compared.
use crate::order::{ORDERED_ROOM, order};
use crate::print;
use check::same;
use test_support::buffers::UNWRITTEN;
use test_support::show;
use test_support::text::next;

pub(crate) fn case(line: &[u8]) {
    show::words_to(line, 0);
    case_in(
        &mut [UNWRITTEN; ORDERED_ROOM],
        &mut [UNWRITTEN; ORDERED_ROOM],
        line,
    );
    show::end();
}

// Orders the plan of a line and, where the line goes on, the second one into a buffer of its own. The buffers are compared
// whole, so that plans of different lengths differ.
fn case_in(one: &mut [u8], other: &mut [u8], line: &[u8]) {
    let end = order(one, line, next(line, 0));
    if end < line.len() {
        show::words(b" and");
        order(other, line, next(line, end));
        print::equal(same(one, other));
    }
}
