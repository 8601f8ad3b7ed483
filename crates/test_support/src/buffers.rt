// Buffers that are lent to be written, filled with a value that shows what was written.
ghost use Rattle.io.specs.Counts.{IsPrefixLen};

// Room for the longest plan, and for bytes after it: a site of 64 jobs and 135 intervals has at most 4,608 open pairs.
pub const PLAN_ROOM: usize = 27_672;

pub const UNWRITTEN: u8 = 165;

// More than any number that an operation writes: a job's cycles, a job number, a cell.
pub const UNWRITTEN_NUMBER: u32 = 2_779_096_485;

// Whether no byte from a place on was written.
pub fn kept(bytes: &[u8], start: usize) -> bool {
    bytes.iter().skip(start).all(|&byte| byte == UNWRITTEN)
}

// Whether no number from a place on was written.
pub fn numbers_kept(numbers: &[u32], start: usize) -> bool {
    numbers
        .iter()
        .skip(start)
        .all(|&number| number == UNWRITTEN_NUMBER)
}

// A length, or that of the buffer where it is longer.
pub fn within_numbers(length: usize, buffer: &[u32]) -> usize
    ensures { IsPrefixLen result buffer.now }
{
    if length < buffer.len() {
        length
    } else {
        buffer.len()
    }
}
