// One board: its level table in bytes, its working levels, and the check.
ghost use Rattle.std.specs.Prelude.{◌≤◌, length};

use crate::print;
use levels::read_working_levels;
use model::{MAX_POINTS, Refusal};
use parameters::as_given;
use test_support::encode::encode;
use test_support::written;

// Whether a board's table is read, its working frequencies with that of idling first and zeros past the last, the check's
// refusal if there is one, and where the board ends in the line.
#[derive(Clone, Copy)]
pub(crate) struct Board {
    pub read: bool,
    pub frequencies: [u64; MAX_POINTS],
    pub refusal: Option<Refusal>,
    pub end: usize,
}

// Checks the plan on the board whose name stands at a place of the line and whose level table at another, and prints the answer.
pub(crate) fn check_board(
    level_bytes: &mut [u8],
    jobs: &[u8],
    marks: &[u8],
    plan: &[u8],
    prices: &[u8],
    line: &[u8],
    name: usize,
    table: usize,
) -> Board
    requires { (name ≤ length line.now) × (table ≤ length line.now) }
    ensures { (table ≤ result.end) × (result.end ≤ length line.now) }
{
    print::names(line, name);
    let levels = encode(level_bytes, 2, line, table);
    let length = levels.length;
    let given = as_given(&level_bytes[..length]);
    let working = read_working_levels(&level_bytes[..length], given.highest);
    let frequencies = working.frequencies;
    written::working(&frequencies, working.count);
    let answer = audit::check(&level_bytes[..length], jobs, marks, given, plan, prices);
    print::checked(answer);
    Board {
        read: working.count > 0,
        frequencies,
        refusal: answer.err(),
        end: levels.end,
    }
}
