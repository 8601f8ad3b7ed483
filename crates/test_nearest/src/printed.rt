// Printing what is answered and written.
use planning::WrittenPlan;
use spare::NoAnswer;
use test_support::buffers::numbers_kept;
use test_support::{show, written};

// Prints the answer and what is in the list, and answers how many numbers were written. Without a list nothing is written.
pub(crate) fn answer(answer: Result<u64, NoAnswer>, list: &[u32]) -> u32 {
    match answer {
        Ok(length) => listed(list, length),
        Err(why) => {
            no_answer(why);
            show::rest(numbers_kept(list, 0));
            0
        }
    }
}

fn listed(list: &[u32], length: u64) -> u32 {
    let numbers = (length % 4_294_967_296) as u32;
    written::list(b" listed", list, numbers);
    show::rest(numbers_kept(list, numbers as usize));
    numbers
}

// Of a plan no more than that there is one.
pub(crate) fn plan(answer: Result<WrittenPlan, NoAnswer>) {
    match answer {
        Ok(_) => show::words(b" plan"),
        Err(why) => no_answer(why),
    }
}

// Why there is no list and no plan.
fn no_answer(why: NoAnswer) {
    match why {
        NoAnswer::Overfull { start, end, spare } => {
            show::words(b" overfull");
            show::number(start as u64);
            show::number(end as u64);
            show::signed(spare);
        }
        NoAnswer::Refused(own) => show::refused(own),
    }
}
