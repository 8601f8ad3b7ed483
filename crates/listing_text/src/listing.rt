// The listing of a site, from its tables.
ghost use Rattle.std.specs.Prelude.{◌≡◌};
ghost use Rattle.listing_text.specs.Listings.{zeros, plan_room, price_room, share_room, marks_of_file, ListingContract};

use crate::plan::put_plan;
use listing_lines::{put_overfull, put_refused};
use model::{MAX_INTERVALS, MAX_JOBS};
use parameters::as_given;
use planning::plan;
use spare::NoAnswer;

// Long enough for the plan, the prices and the shares of any site.
const PLAN_ROOM: usize = 4 + 6 * (MAX_JOBS + MAX_INTERVALS - 1);

const PRICE_ROOM: usize = 2 + 5 * MAX_INTERVALS;

const SHARE_ROOM: usize = MAX_JOBS * MAX_INTERVALS;

// Writes the listing of a site into a buffer, as far as it has room, and answers the length of the text. Any bytes and any
// buffer are answered.
// An empty file of marks means none.
pub fn write_listing(levels: &[u8], jobs: &[u8], marks: &[u8], text: &mut [u8]) -> usize
    ensures { ListingContract levels.now jobs.now (marks_of_file marks.now) text.old text.new result }
{
    if marks.len() == 0 {
        let none = [0u8; 2];
        return list_site(levels, jobs, &none, text);
    }
    list_site(levels, jobs, marks, text)
}

// The listing where the bytes of the marks are those of a mark table.
fn list_site(levels: &[u8], jobs: &[u8], marks: &[u8], text: &mut [u8]) -> usize
    ensures { ListingContract levels.now jobs.now marks.now text.old text.new result }
{
    let mut bytes = plan_buffer();
    let mut prices = price_buffer();
    let mut shares = share_buffer();
    let parameters = as_given(levels);
    let answer = plan(
        levels,
        jobs,
        marks,
        parameters,
        &mut bytes,
        &mut prices,
        &mut shares,
    );
    match answer {
        Ok(written) => put_plan(
            levels,
            jobs,
            marks,
            parameters,
            written.intervals as usize,
            written.steps,
            written.energy,
            &prices,
            &shares,
            text,
        ),
        Err(NoAnswer::Overfull { start, end, spare }) => put_overfull(text, start, end, spare),
        Err(NoAnswer::Refused(own)) => put_refused(text, own.fault.number(), own.place),
    }
}

// One function over the length for this buffer and the next was tried: its own proof did not close yet.
fn plan_buffer() -> [u8; PLAN_ROOM]
    ensures { result ≡ zeros plan_room }
{
    [0; PLAN_ROOM]
}

fn price_buffer() -> [u8; PRICE_ROOM]
    ensures { result ≡ zeros price_room }
{
    [0; PRICE_ROOM]
}

fn share_buffer() -> [u32; SHARE_ROOM]
    ensures { result ≡ zeros share_room }
{
    [0; SHARE_ROOM]
}
