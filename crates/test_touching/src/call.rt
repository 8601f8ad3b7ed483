// A call: the lists that are lent, and what is then in them.
ghost use Rattle.std.specs.Prelude.{◌≤◌, length};

use crate::print;
use crate::print::Lengths;
use test_support::buffers::{UNWRITTEN_NUMBER, within_numbers};
use test_support::text::{next, number};
use test_support::{show, written};
use touching::touching;

// Room for the longest lists, and for numbers after them.
const JOB_ROOM: usize = 80;

const STEP_ROOM: usize = 4_624;

// Makes the call whose name stands at a place of the line and whose span starts at another, and answers the place after it.
pub(crate) fn call(
    jobs: &[u8],
    marks: &[u8],
    plan: &[u8],
    line: &[u8],
    name: usize,
    start: usize,
) -> usize
    requires { (name ≤ length line.now) × (start ≤ length line.now) }
    ensures { (start ≤ result) × (result ≤ length line.now) }
{
    let end = next(line, start);
    let open_jobs = next(line, end);
    let inside_jobs = next(line, open_jobs);
    let steps = next(line, inside_jobs);
    print::names(line, name);
    call_with(
        jobs,
        marks,
        plan,
        number(line, start),
        number(line, end),
        Lengths {
            open_jobs: number(line, open_jobs) as usize,
            inside_jobs: number(line, inside_jobs) as usize,
            steps: number(line, steps) as usize,
        },
        &mut [UNWRITTEN_NUMBER; JOB_ROOM],
        &mut [UNWRITTEN_NUMBER; JOB_ROOM],
        &mut [UNWRITTEN_NUMBER; STEP_ROOM],
    );
    next(line, steps)
}

// Lends a part of each list, and prints what is then in the whole of them.
fn call_with(
    jobs: &[u8],
    marks: &[u8],
    plan: &[u8],
    start: u32,
    end: u32,
    lent: Lengths,
    open_list: &mut [u32],
    inside_list: &mut [u32],
    step_list: &mut [u32],
) {
    let open_room = within_numbers(lent.open_jobs, open_list);
    let inside_room = within_numbers(lent.inside_jobs, inside_list);
    let step_room = within_numbers(lent.steps, step_list);
    // without free ticks and without a margin the jobs are those of the table
    let answer = touching(
        jobs,
        marks,
        0,
        0,
        plan,
        start,
        end,
        &mut open_list[..open_room],
        &mut inside_list[..inside_room],
        &mut step_list[..step_room],
    );
    match answer {
        Ok(listed) => {
            written::list(b" open", open_list, listed.open_jobs);
            written::list(b" inside", inside_list, listed.inside_jobs);
            written::list(b" steps", step_list, listed.steps);
            print::deadline(listed.deadline);
            print::rest(
                open_list,
                inside_list,
                step_list,
                Lengths {
                    open_jobs: listed.open_jobs as usize,
                    inside_jobs: listed.inside_jobs as usize,
                    steps: listed.steps as usize,
                },
            );
        }
        Err(own) => {
            show::refused(own);
            print::rest(open_list, inside_list, step_list, nothing());
        }
    }
    show::end();
}

// A refused call writes nothing.
fn nothing() -> Lengths {
    Lengths {
        open_jobs: 0,
        inside_jobs: 0,
        steps: 0,
    }
}
