// Walks the plan of a line, and prints its steps one after another, and the end or the refusal; or prints what stands at
// one position of it.
ghost use Rattle.std.specs.Prelude.{◌≡◌, ◌≤◌, length};
ghost use Rattle.test_check.specs.Printing.{is_step};

use model::Refusal;
use test_support::encode::encode;
use test_support::show;
use test_support::text::{next, number};
use walking::Step;

pub(crate) fn case(bytes: &mut [u8], line: &[u8], kind: usize)
    requires { kind ≤ length line.now }
{
    let place = next(line, kind);
    encode(bytes, 2, line, next(line, place));
    let count = io::count(number(line, place) as isize, bytes);
    walk(&bytes[..count]);
}

pub(crate) fn step_case(bytes: &mut [u8], line: &[u8], kind: usize)
    requires { kind ≤ length line.now }
{
    let place = next(line, kind);
    let position = next(line, place);
    encode(bytes, 2, line, next(line, position));
    let count = io::count(number(line, place) as isize, bytes);
    print(walking::step_at(&bytes[..count], number(line, position) as usize));
}

// A step is taken from the reading that the step before left, until there is none.
fn walk(plan: &[u8]) {
    let mut taken = walking::next(walking::start(plan));
    while print(taken.answer) {
        taken = walking::next(taken.rest);
    }
}

// Prints what was taken, and answers whether it is a step.
fn print(answer: Result<Option<Step>, Refusal>) -> bool
    ensures { result ≡ is_step answer }
{
    match answer {
        Ok(Some(step)) => {
            print_step(step);
            true
        }
        Ok(None) => {
            show::words(b" end");
            false
        }
        Err(own) => {
            show::refused(own);
            false
        }
    }
}

fn print_step(step: Step) {
    show::words(b" step");
    show::number(step.interval as u64);
    show::number(step.job as u64);
    show::number(step.cycles);
}
