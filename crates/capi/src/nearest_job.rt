// The job nearest to trouble, for C.
ghost use Rattle.capi.specs.Results.{NearestCall};

use model::Parameters;
use spare::NoAnswer;

// The job nearest to trouble. Number 0: the list was written, with its length in numbers; 11: the earliest overfull window and its spare;
// otherwise the refusal's number and place. Fields that a case does not fill are 0.
#[repr(C)]
#[derive(Clone, Copy)]
pub struct NearestResult {
    pub number: u32,
    pub place: u32,
    pub start: u32,
    pub end: u32,
    pub spare: i64,
    pub length: u64,
}

#[unsafe(no_mangle)]
pub extern "C" fn ramyearly_nearest(
    levels: &[u8],
    jobs: &[u8],
    highest: u32,
    free_ticks: u32,
    margin: u32,
    list: &mut [u32],
) -> NearestResult
    ensures { NearestCall levels.now jobs.now (record { highest = highest; free = free_ticks; margin = margin }) list.old list.new result }
{
    let parameters = Parameters {
        highest,
        free: free_ticks,
        margin,
    };
    match nearest::nearest(levels, jobs, parameters, list) {
        Ok(length) => NearestResult {
            number: 0,
            place: 0,
            start: 0,
            end: 0,
            spare: 0,
            length,
        },
        Err(NoAnswer::Overfull { start, end, spare }) => NearestResult {
            number: 11,
            place: 0,
            start,
            end,
            spare,
            length: 0,
        },
        Err(NoAnswer::Refused(own)) => NearestResult {
            number: own.fault.number(),
            place: own.place,
            start: 0,
            end: 0,
            spare: 0,
            length: 0,
        },
    }
}
