// A case: whether the plan of a line fits, and what the check answers for it with the price list of the line.
use model::Refusal;
use parameters::as_given;
use test_support::encode::{ROOM, encode_tables};
use test_support::show;
use test_support::text::next;

pub(crate) fn case(line: &[u8]) {
    show::words_to(line, 0);
    case_in(
        &mut [0; ROOM],
        &mut [0; ROOM],
        &mut [0; ROOM],
        &mut [0; ROOM],
        &mut [0; ROOM],
        line,
    );
    show::end();
}

// The tables in bytes. Their lengths and numbers stand after the name.
fn case_in(
    level_bytes: &mut [u8],
    job_bytes: &mut [u8],
    mark_bytes: &mut [u8],
    plan_bytes: &mut [u8],
    price_bytes: &mut [u8],
    line: &[u8],
) {
    let tables = encode_tables(
        level_bytes,
        job_bytes,
        mark_bytes,
        plan_bytes,
        price_bytes,
        line,
        next(line, 0),
    );
    let levels = tables.levels;
    let jobs = tables.jobs;
    let marks = tables.marks;
    let plan = tables.plan;
    let prices = tables.prices;
    halves(
        &level_bytes[..levels],
        &job_bytes[..jobs],
        &mark_bytes[..marks],
        &plan_bytes[..plan],
        &price_bytes[..prices],
    );
}

// The first half, which is lent no price list, and the whole check.
fn halves(levels: &[u8], jobs: &[u8], marks: &[u8], plan: &[u8], prices: &[u8]) {
    let given = as_given(levels);
    print_fits(audit::fits(levels, jobs, marks, given, plan));
    show::words(b" check");
    show::checked(audit::check(levels, jobs, marks, given, plan, prices));
}

fn print_fits(answer: Result<u64, Refusal>) {
    match answer {
        Ok(energy) => {
            show::words(b" fits");
            show::number(energy);
        }
        Err(own) => show::refused(own),
    }
}
