// Checks the plan and the price list of a line, and prints what is answered.
ghost use Rattle.std.specs.Prelude.{◌≤◌, length};

use parameters::as_given;
use test_support::encode::{ROOM, encode_tables};
use test_support::show;
use test_support::text::next;

pub(crate) fn case(line: &[u8], kind: usize)
    requires { kind ≤ length line.now }
{
    case_in(
        &mut [0; ROOM],
        &mut [0; ROOM],
        &mut [0; ROOM],
        &mut [0; ROOM],
        &mut [0; ROOM],
        line,
        next(line, kind),
    );
}

// The tables in bytes, from the place of the lengths on, and the check.
fn case_in(
    level_bytes: &mut [u8],
    job_bytes: &mut [u8],
    mark_bytes: &mut [u8],
    plan_bytes: &mut [u8],
    price_bytes: &mut [u8],
    line: &[u8],
    lengths: usize,
)
    requires { lengths ≤ length line.now }
{
    let tables = encode_tables(
        level_bytes,
        job_bytes,
        mark_bytes,
        plan_bytes,
        price_bytes,
        line,
        lengths,
    );
    let levels = tables.levels;
    let jobs = tables.jobs;
    let marks = tables.marks;
    let plan = tables.plan;
    let prices = tables.prices;
    let given = as_given(&level_bytes[..levels]);
    show::checked(audit::check(
        &level_bytes[..levels],
        &job_bytes[..jobs],
        &mark_bytes[..marks],
        given,
        &plan_bytes[..plan],
        &price_bytes[..prices],
    ));
}
