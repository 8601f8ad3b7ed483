// Prints the listing of a site. Its tables are the files levels.tbl, jobs.tbl and marks.tbl of the working directory. A marks.tbl that is
// missing, empty or can't be read means no handover marks.
#![tactic(auto)]

ghost use Rattle.std.specs.Prelude.{◌≡◌, length};
ghost use Rattle.io.specs.Counts.{IsPrefixLen};
ghost use Rattle.listing_lines.specs.Appending.{text_room};

use listing_text::{TEXT_ROOM, write_listing};
use model::{MAX_JOBS, MAX_LEVELS, MAX_MARKS};
use std::fs::File;
use std::io::{Read, Result, Write, writer};
use std::rt::Files;

// One byte more than the longest valid table has. Of a longer file no more is read: it has a wrong length as it is.
const LEVEL_ROOM: usize = 2 + 4 * MAX_LEVELS + 1;

const JOB_ROOM: usize = 2 + 12 * MAX_JOBS + 1;

const MARK_ROOM: usize = 2 + 4 * MAX_MARKS + 1;

fn main(rt: HostRuntime) -> Result<()> {
    let mut levels = [0u8; LEVEL_ROOM];
    let level_count = read_file(&rt, "levels.tbl", &mut levels);
    let mut jobs = [0u8; JOB_ROOM];
    let job_count = read_file(&rt, "jobs.tbl", &mut jobs);
    let mut marks = [0u8; MARK_ROOM];
    let mark_count = read_file(&rt, "marks.tbl", &mut marks);
    let mut text = text_buffer();
    let length = write_listing(
        &levels[..level_count],
        &jobs[..job_count],
        &marks[..mark_count],
        &mut text,
    );
    writer(&rt).write_all(&text[..length])
}

fn text_buffer() -> [u8; TEXT_ROOM]
    ensures { text_room ≡ length result }
{
    [0; TEXT_ROOM]
}

// Reads a file into a buffer, as far as it has room, and answers how many bytes there are. A file that can't be read, as one that
// is missing or a folder, counts as empty.
fn read_file(rt: &impl Files, path: &str, bytes: &mut [u8]) -> usize
    ensures { IsPrefixLen result bytes.new }
{
    match File::open(rt, path) {
        Ok(mut file) => read_full(&mut file, bytes),
        Err(_) => 0,
    }
}

// Reads until the buffer is full, the file ends or a read fails, and answers how many bytes there are.
fn read_full(file: &mut impl Read, bytes: &mut [u8]) -> usize
    ensures { IsPrefixLen result bytes.new }
{
    let mut count = 0;
    while count < bytes.len() {
        match file.read(&mut bytes[count..]) {
            Ok(0) | Err(_) => break,
            Ok(more) => count += more,
        }
    }
    count
}
