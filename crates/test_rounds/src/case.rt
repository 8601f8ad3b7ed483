// A case: the task table of its line in bytes, and what laying out its rounds answers and writes.
use crate::print;
use test_support::buffers::{UNWRITTEN, kept};
use test_support::encode::{ROOM, encode};
use test_support::show;
use test_support::text::{next, number};

pub(crate) fn case(line: &[u8]) {
    show::words_to(line, 0);
    case_in(&mut [0; ROOM], &mut [UNWRITTEN; ROOM], line);
    show::end();
}

// Lends the first bytes of the table, or the table with zeros after it, and the first bytes of the buffer. Prints what is
// then in the whole buffer.
fn case_in(task_bytes: &mut [u8], job_bytes: &mut [u8], line: &[u8]) {
    let room = next(line, 0);
    let length = next(line, room);
    encode(task_bytes, 4, line, length);
    let task_length = io::count(number(line, length) as isize, task_bytes);
    let job_length = io::count(number(line, room) as isize, job_bytes);
    let answer = rounds::rounds(&task_bytes[..task_length], &mut job_bytes[..job_length]);
    match answer {
        Ok(round) => {
            print::laid_out(round);
            let written = io::count(round.length as isize, job_bytes);
            show::rest(kept(job_bytes, written));
            print::jobs(&job_bytes[..written]);
        }
        Err(own) => {
            show::refused(own);
            show::rest(kept(job_bytes, 0));
        }
    }
}
