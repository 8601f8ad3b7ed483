// How long the buffers must be: refusals 12 to 14.
#![tactic(auto)]

ghost use Rattle.std.specs.Prelude.{◌≡◌, ◌+◌, ◌-◌, ◌≤◌, min};
ghost use Rattle.model.specs.Limits.{max_jobs, max_intervals};
ghost use Rattle.model.specs.Sites.{Site};
ghost use Rattle.rooms.specs.WantedRooms.{OpenIn, WantedRooms};

use job_sets::{SET_WORDS, count_all};

// The lengths wanted: bytes of the plan and of the prices, and shares.
#[derive(Clone, Copy)]
pub struct Rooms {
    pub plan: usize,
    pub prices: usize,
    pub shares: usize,
}

// 4 + 6 × the step limit bytes, 2 + 5N bytes and n × N shares. K, the number of pairs of a job and an interval where the job is open,
// is the number of members of all open sets.
pub fn rooms_of(jobs: usize, intervals: usize, open: &[u64; SET_WORDS]) -> Rooms
    requires { (s : Site) × OpenIn s jobs intervals «open».now }
    ensures { (s : Site) → OpenIn s jobs intervals «open».now → WantedRooms s result.plan result.prices result.shares }
{
    let pairs = count_all(open, intervals);
    let steps = step_limit(jobs, intervals, pairs);
    Rooms {
        plan: 4 + 6 * steps,
        prices: 2 + 5 * intervals,
        shares: jobs * intervals,
    }
}

// The smaller of jobs + intervals − 1 and the pairs; without jobs there are no pairs.
fn step_limit(jobs: usize, intervals: usize, pairs: usize) -> usize
    requires { (jobs ≤ max_jobs) × (intervals ≤ max_intervals) × (jobs ≡ 0 → pairs ≡ 0) }
    ensures { result ≡ min (jobs + intervals - 1) pairs }
{
    if jobs == 0 {
        return 0;
    }
    let most = jobs + intervals - 1;
    most.min(pairs)
}
