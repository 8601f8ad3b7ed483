// What the first half of the check, the check and ordering answer for a plan.
ghost use Rattle.std.specs.Prelude.{◌≤◌, length};

use model::{Parameters, Refusal};
use test_support::buffers::{UNWRITTEN, kept};
use test_support::encode::{ROOM, encode};
use test_support::text::MAX_NUMBERS;
use test_support::{show, written};

// How many bytes the plan and the price list have, and how many are lent to ordering.
#[derive(Clone, Copy)]
pub struct Lengths {
    pub ordered: u32,
    pub plan: u32,
    pub prices: u32,
}

// A plan and a price list that stand from a place of the line on. The numbers are the parameters and the lengths.
pub(crate) fn case(
    levels: &[u8],
    jobs: &[u8],
    marks: &[u8],
    line: &[u8],
    place: usize,
    values: [u32; MAX_NUMBERS],
)
    requires { place ≤ length line.now }
{
    plan_in(
        levels,
        jobs,
        marks,
        Parameters {
            highest: values[0],
            free: values[1],
            margin: values[2],
        },
        &mut [0; ROOM],
        &mut [0; ROOM],
        line,
        place,
        Lengths {
            ordered: values[3],
            plan: values[4],
            prices: values[5],
        },
    );
}

// The plan and the price list in bytes.
fn plan_in(
    levels: &[u8],
    jobs: &[u8],
    marks: &[u8],
    parameters: Parameters,
    plan_bytes: &mut [u8],
    price_bytes: &mut [u8],
    line: &[u8],
    place: usize,
    lengths: Lengths,
)
    requires { place ≤ length line.now }
{
    let plan_table = encode(plan_bytes, 2, line, place);
    encode(price_bytes, 1, line, plan_table.end);
    let plan = io::count(lengths.plan as isize, plan_bytes);
    let prices = io::count(lengths.prices as isize, price_bytes);
    ask(
        levels,
        jobs,
        marks,
        parameters,
        &plan_bytes[..plan],
        &price_bytes[..prices],
        &mut [UNWRITTEN; ROOM],
        lengths.ordered,
    );
}

// Lends the first bytes of a buffer to ordering, and prints what is then in the whole of it.
pub(crate) fn ask(
    levels: &[u8],
    jobs: &[u8],
    marks: &[u8],
    parameters: Parameters,
    plan: &[u8],
    prices: &[u8],
    ordered: &mut [u8],
    room: u32,
) {
    print_fits(audit::fits(levels, jobs, marks, parameters, plan));
    print_check(audit::check(levels, jobs, marks, parameters, plan, prices));
    let lent = io::count(room as isize, ordered);
    let length = print_order(ordering::order(
        levels,
        jobs,
        marks,
        parameters,
        plan,
        prices,
        &mut ordered[..lent],
    ));
    let written = io::count(length as isize, ordered);
    if written > 0 {
        written::plan(&ordered[..written]);
    }
    show::rest(kept(ordered, written));
}

fn print_fits(answer: Result<u64, Refusal>) {
    show::words(b" fits");
    match answer {
        Ok(energy) => show::number(energy),
        Err(own) => show::refused(own),
    }
}

fn print_check(answer: Result<u64, Refusal>) {
    show::words(b" check");
    match answer {
        Ok(energy) => show::accepted(energy),
        Err(own) => show::refused(own),
    }
}

// Prints the answer, and answers how many bytes it says are written.
fn print_order(answer: Result<u32, Refusal>) -> u32 {
    show::words(b" order");
    match answer {
        Ok(length) => {
            show::number(length as u64);
            length
        }
        Err(own) => {
            show::refused(own);
            0
        }
    }
}
