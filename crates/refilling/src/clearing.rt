// Taking all shares out of the table, and all jobs out of the sets of those with a share.
ghost use Rattle.std.specs.Prelude.{◌≡◌, true, ℕ, ◌+◌, ◌*◌, ◌<◌, ◌≤◌, length};
ghost use Rattle.job_sets.specs.JobSets.{is_member};
ghost use Rattle.refilling.specs.Clearing.{HoldsShares, RowCleared, Cleared};

use job_sets::{JobSet, SET_WORDS};

// Clears the table where the sets say that a job has a share.
pub(crate) fn clear(
    shares: &mut [u32],
    holders: &mut [u64; SET_WORDS],
    jobs: usize,
    intervals: usize,
)
    requires { HoldsShares jobs intervals shares.old holders.old }
    ensures { Cleared jobs intervals shares.old shares.new holders.new }
{
    for interval in 0..intervals {
        let set = job_sets::set_at(holders, interval);
        clear_row(shares, set, jobs, interval);
    }
    *holders = [0; SET_WORDS];
}

// Sets the shares of the members of a set in an interval to 0.
fn clear_row(shares: &mut [u32], set: JobSet, jobs: usize, interval: usize)
    requires { ((j : ℕ) → is_member set j ≡ true → j < jobs) × (interval * jobs + jobs ≤ length shares.old) }
    ensures { RowCleared jobs interval set shares.old shares.new }
{
    let mut rest = set;
    while !rest.is_empty() {
        let job = rest.least();
        shares[interval * jobs + job] = 0;
        rest = rest.without(job);
    }
}
