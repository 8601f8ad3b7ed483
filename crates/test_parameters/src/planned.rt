// A site that is planned, and what is answered of the plan.
ghost use Rattle.std.specs.Prelude.{◌≤◌, length};

use crate::by_hand::site_and_altered;
use crate::touched::{LIST_ROOM, Question};
use crate::{ask, touched};
use model::Parameters;
use planning::WrittenPlan;
use spare::NoAnswer;
use test_support::buffers::{UNWRITTEN, UNWRITTEN_NUMBER, kept, numbers_kept, within_numbers};
use test_support::text::MAX_NUMBERS;
use test_support::{show, written};

// Room for the plans, the price lists and the shares of the cases, and for more after them.
pub(crate) const WRITTEN_ROOM: usize = 128;

// The parameters of planning and those of the questions after it, and how much of each buffer is lent.
#[derive(Clone, Copy)]
pub struct Request {
    pub planning: Parameters,
    pub asking: Parameters,
    pub plan: u32,
    pub prices: u32,
    pub shares: u32,
}

// A site that is planned as the numbers say, and tables altered by hand where they stand from a place of the line on.
pub(crate) fn case(
    levels: &[u8],
    jobs: &[u8],
    marks: &[u8],
    line: &[u8],
    place: usize,
    values: [u32; MAX_NUMBERS],
)
    requires { place ≤ length line.now }
{
    site_and_altered(
        levels,
        jobs,
        marks,
        Request {
            planning: Parameters {
                highest: values[0],
                free: values[1],
                margin: values[2],
            },
            asking: Parameters {
                highest: values[3],
                free: values[4],
                margin: values[5],
            },
            plan: values[6],
            prices: values[7],
            shares: values[8],
        },
        &mut [UNWRITTEN; WRITTEN_ROOM],
        &mut [UNWRITTEN; WRITTEN_ROOM],
        line,
        place,
    );
}

// Lends a part of each buffer to planning, and prints what is then in the whole of them.
pub(crate) fn make(
    levels: &[u8],
    jobs: &[u8],
    marks: &[u8],
    request: Request,
    plan: &mut [u8],
    prices: &mut [u8],
    shares: &mut [u32],
) {
    let plan_room = io::count(request.plan as isize, plan);
    let price_room = io::count(request.prices as isize, prices);
    let share_room = within_numbers(request.shares as usize, shares);
    let planning = request.planning;
    let answer = planning::plan(
        levels,
        jobs,
        marks,
        planning,
        &mut plan[..plan_room],
        &mut prices[..price_room],
        &mut shares[..share_room],
    );
    print_answer(levels, jobs, marks, request, plan, prices, shares, answer);
}

// What planning answered, and whether the rest of each buffer is as it was.
fn print_answer(
    levels: &[u8],
    jobs: &[u8],
    marks: &[u8],
    request: Request,
    plan: &[u8],
    prices: &[u8],
    shares: &[u32],
    answer: Result<WrittenPlan, NoAnswer>,
) {
    match answer {
        Ok(made) => {
            show::words(b" planned");
            show::number(made.intervals as u64);
            show::number(made.energy);
            print_written(levels, jobs, marks, request, plan, prices, shares, made);
        }
        Err(why) => {
            print_no_answer(why);
            print_rest(plan, prices, shares, 0, 0, 0);
        }
    }
}

// Why there is no plan.
fn print_no_answer(why: NoAnswer) {
    match why {
        NoAnswer::Overfull { start, end, spare } => {
            show::words(b" overfull");
            show::number(start as u64);
            show::number(end as u64);
            show::signed(spare);
        }
        NoAnswer::Refused(own) => show::refused(own),
    }
}

// The shares and the prices, and what is answered of the plan. As many shares are lent as are written.
fn print_written(
    levels: &[u8],
    jobs: &[u8],
    marks: &[u8],
    request: Request,
    plan: &[u8],
    prices: &[u8],
    shares: &[u32],
    made: WrittenPlan,
) {
    let intervals = made.intervals as usize;
    let plan_length = io::count((4 + 6 * made.steps as usize) as isize, plan);
    let price_length = io::count((2 + 5 * intervals) as isize, prices);
    written::list(b" shares", shares, request.shares);
    written::prices(&prices[..price_length], 2 + 4 * intervals);
    print_rest(
        plan,
        prices,
        shares,
        plan_length,
        price_length,
        request.shares as usize,
    );
    let asking = request.asking;
    questions(
        levels,
        jobs,
        marks,
        asking,
        &plan[..plan_length],
        &prices[..price_length],
    );
}

// Whether each buffer is as it was from a place on.
fn print_rest(
    plan: &[u8],
    prices: &[u8],
    shares: &[u32],
    plan_place: usize,
    price_place: usize,
    share_place: usize,
) {
    let plan_kept = kept(plan, plan_place);
    let prices_kept = kept(prices, price_place);
    let shares_kept = numbers_kept(shares, share_place);
    show::rest(plan_kept & prices_kept & shares_kept);
}

// What is asked of the plan, and what touches the whole time.
fn questions(
    levels: &[u8],
    jobs: &[u8],
    marks: &[u8],
    asking: Parameters,
    plan: &[u8],
    prices: &[u8],
) {
    ask::ask(
        levels,
        jobs,
        marks,
        asking,
        plan,
        prices,
        &mut [UNWRITTEN; WRITTEN_ROOM],
        WRITTEN_ROOM as u32,
    );
    show::words(b" touching");
    touched::ask(
        jobs,
        marks,
        plan,
        Question {
            free: asking.free,
            margin: asking.margin,
            start: 0,
            end: 1_000_000,
            open_jobs: LIST_ROOM as u32,
            inside_jobs: LIST_ROOM as u32,
            steps: LIST_ROOM as u32,
        },
        &mut [UNWRITTEN_NUMBER; LIST_ROOM],
        &mut [UNWRITTEN_NUMBER; LIST_ROOM],
        &mut [UNWRITTEN_NUMBER; LIST_ROOM],
    );
}
