// The search for an interval with room: from the job being placed over the intervals in which it is open, the jobs with
// shares there, the intervals in which those are open, and so on.
ghost use Rattle.std.specs.Prelude.{◌≡◌, length};
ghost use Rattle.model.specs.Limits.{max_jobs};
ghost use Rattle.searching.specs.Reaching.{state_of, CanSearch, Searches, CanScanUp, ScansUp};

use crate::reached::{Found, only, scan};
use job_sets::SET_WORDS;
use model::{MAX_INTERVALS, MAX_JOBS};

// Looks for an interval with room. It scans upwards as far as is reached, then one interval down, and again; the scanned
// intervals go from low up to, not including, high. For each interval `room` has the cycles that it still takes, and `holders`
// the set of the jobs with a share there.
pub fn search(
    first: &[u8; MAX_JOBS],
    last: &[u8; MAX_JOBS],
    room: &[u64; MAX_INTERVALS],
    holders: &[u64; SET_WORDS],
    job: usize,
    reached: &mut [u8; MAX_JOBS],
    source: &mut [u8; MAX_JOBS],
) -> Found
    requires can_search { CanSearch first.now last.now room.now holders.now job }
    requires reached_len { (length reached.old ≡ max_jobs) × (length source.old ≡ max_jobs) }
    ensures { (length reached.new ≡ max_jobs) × (length source.new ≡ max_jobs)
        × Searches first.now last.now room.now holders.now job
        (state_of result reached.new source.new) }
{
    reached[0] = job as u8;
    let mut low = first[job] as usize;
    let mut high = low;
    let mut found = only(job, low, last[job] as usize);
    loop {
        found = scan_up(first, last, room, holders, found, high, reached, source);
        if found.target < MAX_INTERVALS {
            return found;
        }
        if low <= found.start {
            return found;
        }
        high = found.end;
        low -= 1;
        if room[low] > 0 {
            found.target = low;
            return found;
        }
        let set = job_sets::set_at(holders, low);
        found = scan(first, last, set, found, low, reached, source);
    }
}

// Scans the reached intervals upwards from one on, also those that are reached on the way, and stops at one with room.
fn scan_up(
    first: &[u8; MAX_JOBS],
    last: &[u8; MAX_JOBS],
    room: &[u64; MAX_INTERVALS],
    holders: &[u64; SET_WORDS],
    before: Found,
    from: usize,
    reached: &mut [u8; MAX_JOBS],
    source: &mut [u8; MAX_JOBS],
) -> Found
    requires { CanScanUp first.now last.now room.now holders.now (state_of before reached.old source.old) from }
    ensures { ScansUp first.now last.now room.now holders.now
        (state_of before reached.old source.old) from (state_of result reached.new source.new) }
{
    let mut found = before;
    let mut high = from;
    // no range: the end moves up as jobs are reached
    while high < found.end {
        if room[high] > 0 {
            found.target = high;
            return found;
        }
        let set = job_sets::set_at(holders, high);
        found = scan(first, last, set, found, high, reached, source);
        high += 1;
    }
    found
}
