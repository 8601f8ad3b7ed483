// Printing what ordering and the check answer.
use model::Refusal;
use test_support::show;

// Prints the answer, and answers how many bytes it says are written.
pub(crate) fn answer(answer: Result<u32, Refusal>) -> u32 {
    match answer {
        Ok(length) => {
            show::words(b" ordered");
            show::number(length as u64);
            length
        }
        Err(own) => {
            show::refused(own);
            0
        }
    }
}

pub(crate) fn checked(answer: Result<u64, Refusal>) {
    match answer {
        Ok(energy) => show::accepted(energy),
        Err(own) => show::refused(own),
    }
}

pub(crate) fn unchanged(same: bool) {
    if same {
        show::words(b" unchanged");
    } else {
        show::words(b" changed");
    }
}

pub(crate) fn equal(same: bool) {
    if same {
        show::words(b" equal");
    } else {
        show::words(b" different");
    }
}
