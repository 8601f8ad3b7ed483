// What touches a span, by a plan.
ghost use Rattle.std.specs.Prelude.{◌≤◌, length};

use model::Refusal;
use test_support::buffers::{UNWRITTEN_NUMBER, numbers_kept, within_numbers};
use test_support::encode::{ROOM, encode};
use test_support::text::MAX_NUMBERS;
use test_support::{show, written};
use touching::ListLengths;

// Room for the lists of the cases, and for numbers after them.
pub(crate) const LIST_ROOM: usize = 16;

// The span, how many ticks are kept free and what margin there is, and how many numbers of each list are lent.
#[derive(Clone, Copy)]
pub struct Question {
    pub free: u32,
    pub margin: u32,
    pub start: u32,
    pub end: u32,
    pub open_jobs: u32,
    pub inside_jobs: u32,
    pub steps: u32,
}

// A plan that stands from a place of the line on. The numbers are those of the question, and how many bytes the plan has.
pub(crate) fn case(jobs: &[u8], marks: &[u8], line: &[u8], place: usize, values: [u32; MAX_NUMBERS])
    requires { place ≤ length line.now }
{
    plan_in(
        jobs,
        marks,
        &mut [0; ROOM],
        line,
        place,
        values[7],
        Question {
            free: values[0],
            margin: values[1],
            start: values[2],
            end: values[3],
            open_jobs: values[4],
            inside_jobs: values[5],
            steps: values[6],
        },
    );
}

// The plan in bytes.
fn plan_in(
    jobs: &[u8],
    marks: &[u8],
    bytes: &mut [u8],
    line: &[u8],
    place: usize,
    plan_length: u32,
    question: Question,
)
    requires { place ≤ length line.now }
{
    encode(bytes, 2, line, place);
    let plan = io::count(plan_length as isize, bytes);
    ask(
        jobs,
        marks,
        &bytes[..plan],
        question,
        &mut [UNWRITTEN_NUMBER; LIST_ROOM],
        &mut [UNWRITTEN_NUMBER; LIST_ROOM],
        &mut [UNWRITTEN_NUMBER; LIST_ROOM],
    );
}

// Lends a part of each list, and prints what is then in the whole of them.
pub(crate) fn ask(
    jobs: &[u8],
    marks: &[u8],
    plan: &[u8],
    question: Question,
    open_list: &mut [u32],
    inside_list: &mut [u32],
    step_list: &mut [u32],
) {
    let open_room = within_numbers(question.open_jobs as usize, open_list);
    let inside_room = within_numbers(question.inside_jobs as usize, inside_list);
    let step_room = within_numbers(question.steps as usize, step_list);
    let answer = touching::touching(
        jobs,
        marks,
        question.free,
        question.margin,
        plan,
        question.start,
        question.end,
        &mut open_list[..open_room],
        &mut inside_list[..inside_room],
        &mut step_list[..step_room],
    );
    print_touched(answer, open_list, inside_list, step_list);
}

// The lists and the nearest deadline, or the refusal; and whether the rest of each list is as it was.
fn print_touched(
    answer: Result<ListLengths, Refusal>,
    open_list: &[u32],
    inside_list: &[u32],
    step_list: &[u32],
) {
    match answer {
        Ok(listed) => {
            written::list(b" open", open_list, listed.open_jobs);
            written::list(b" inside", inside_list, listed.inside_jobs);
            written::list(b" steps", step_list, listed.steps);
            print_deadline(listed.deadline);
            let open_kept = numbers_kept(open_list, listed.open_jobs as usize);
            let inside_kept = numbers_kept(inside_list, listed.inside_jobs as usize);
            let steps_kept = numbers_kept(step_list, listed.steps as usize);
            show::rest(open_kept & inside_kept & steps_kept);
        }
        Err(own) => {
            show::refused(own);
            let open_kept = numbers_kept(open_list, 0);
            let inside_kept = numbers_kept(inside_list, 0);
            let steps_kept = numbers_kept(step_list, 0);
            show::rest(open_kept & inside_kept & steps_kept);
        }
    }
}

fn print_deadline(nearest: Option<u32>) {
    show::words(b" deadline");
    match nearest {
        Some(deadline) => show::number(deadline as u64),
        None => show::words(b" none"),
    }
}
