// The buffers that are lent to planning, filled with a value that shows what was written.
ghost use Rattle.io.specs.Counts.{IsPrefixLen};

// Room for the longest price list and the largest shares table, of 64 jobs and 135 intervals, and for more after them.
pub(crate) const PRICE_ROOM: usize = 680;

pub(crate) const SHARE_ROOM: usize = 8_656;

// How long a part of each buffer is: in bytes, and in numbers for the shares.
#[derive(Clone, Copy)]
pub struct Lengths {
    pub plan: usize,
    pub prices: usize,
    pub shares: usize,
}

// A length, or that of the buffer where it is longer.
pub(crate) fn within_bytes(length: usize, buffer: &[u8]) -> usize
    ensures { IsPrefixLen result buffer.now }
{
    if length < buffer.len() {
        length
    } else {
        buffer.len()
    }
}
