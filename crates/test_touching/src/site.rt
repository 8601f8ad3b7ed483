// A site: the tables of its line in bytes, and the calls with them.
ghost use Rattle.std.specs.Prelude.{◌≤◌, length};

use crate::call::call;
use test_support::buffers::PLAN_ROOM;
use test_support::encode::{ROOM, encode, encode_marks};
use test_support::text::{next, number};

pub(crate) fn site(line: &[u8]) {
    tables_in(&mut [0; ROOM], &mut [0; ROOM], &mut [0; PLAN_ROOM], line);
}

// The tables in bytes. The lengths of the job table and of the plan stand before them, and need not be those of their
// numbers.
fn tables_in(job_bytes: &mut [u8], mark_bytes: &mut [u8], plan_bytes: &mut [u8], line: &[u8]) {
    let first = next(line, 0);
    let second = next(line, first);
    let jobs = encode(job_bytes, 4, line, next(line, second));
    let marks = encode_marks(mark_bytes, line, jobs.end);
    let plan = encode(plan_bytes, 2, line, marks.end);
    let job_length = io::count(number(line, first) as isize, job_bytes);
    let mark_length = marks.length;
    let plan_length = io::count(number(line, second) as isize, plan_bytes);
    calls(
        &job_bytes[..job_length],
        &mark_bytes[..mark_length],
        &plan_bytes[..plan_length],
        line,
        plan.end,
    );
}

// The calls from a place of the line on.
fn calls(jobs: &[u8], marks: &[u8], plan: &[u8], line: &[u8], first: usize)
    requires { first ≤ length line.now }
{
    let mut place = first;
    while place < line.len() {
        place = call(jobs, marks, plan, line, place, next(line, place));
    }
}
