// A case: the tables of its line in bytes, and what the spare of its window is with them.
use model::Refusal;
use parameters::as_given;
use test_support::encode::{ROOM, encode};
use test_support::show;
use test_support::text::{next, number};

pub(crate) fn case(line: &[u8]) {
    case_in(&mut [0; ROOM], &mut [0; ROOM], line);
}

fn case_in(level_bytes: &mut [u8], job_bytes: &mut [u8], line: &[u8]) {
    let start = next(line, 0);
    let end = next(line, start);
    let levels = encode(level_bytes, 2, line, next(line, end));
    let jobs = encode(job_bytes, 4, line, levels.end);
    let level_length = levels.length;
    let job_length = jobs.length;
    let given = as_given(&level_bytes[..level_length]);
    let answer = spare::spare(
        &level_bytes[..level_length],
        &job_bytes[..job_length],
        given,
        number(line, start),
        number(line, end),
    );
    print(line, answer);
}

fn print(line: &[u8], answer: Result<i64, Refusal>) {
    show::words_to(line, 0);
    match answer {
        Ok(spare) => {
            show::words(b" spare");
            show::signed(spare);
        }
        Err(own) => show::refused(own),
    }
    show::end();
}
