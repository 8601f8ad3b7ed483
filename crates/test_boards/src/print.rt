// Printing the line of a board, and the line of what the boards have in common.
ghost use Rattle.std.specs.Prelude.{◌≤◌, length};

use crate::common::Common;
use model::Refusal;
use test_support::show;

// The name of the case, and that of the board at a place.
pub(crate) fn names(line: &[u8], place: usize)
    requires { place ≤ length line.now }
{
    show::words_to(line, 0);
    show::words(b" ");
    show::words_to(&line[place..], 0);
}

// Prints the check's answer, which ends the line of a board.
pub(crate) fn checked(answer: Result<u64, Refusal>) {
    show::checked(answer);
    show::end();
}

// What the boards of a case have in common.
pub(crate) fn common(line: &[u8], common: Common) {
    show::words_to(line, 0);
    same(b" frequencies", common.same_frequencies);
    same(b" answers", common.same_answers);
    show::end();
}

fn same(word: &[u8], same: bool) {
    show::words(word);
    if same {
        show::words(b" same");
    } else {
        show::words(b" different");
    }
}
