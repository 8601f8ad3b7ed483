// The cycles of jobs by the bound that is their deadline.
#![tactic(auto)]

ghost use Rattle.std.specs.Prelude.{◌≡◌, ℕ, ◌^◌, ◌<◌, ◌≤◌, length, replicate};
ghost use Rattle.model.specs.Limits.{max_jobs, max_intervals, max_bounds};
ghost use Rattle.model.specs.Sum.{sum};
ghost use Rattle.workloads.specs.Arrays.{numbers_in};
ghost use Rattle.due_cycles.specs.Due.{due_at};

use model::{MAX_BOUNDS, MAX_JOBS};

// Puts the cycles of the jobs due at each bound into an array of zeros.
pub fn add_due(
    last: &[u8; MAX_JOBS],
    cycles: &[u64; MAX_JOBS],
    jobs: usize,
    due: &mut [u32; MAX_BOUNDS],
)
    requires jobs_le_max_jobs { (jobs ≤ max_jobs) × (sum jobs (numbers_in cycles.now) < 2 ^ 32) × ((j : ℕ) → j < jobs → numbers_in last.now j ≤ max_intervals) }
    requires due_value { due.old ≡ replicate max_bounds 0 }
    ensures { (length due.new ≡ max_bounds)
        × ((b : ℕ) → numbers_in due.new b ≡ due_at jobs (numbers_in last.now) (numbers_in cycles.now) b) }
{
    for (&bound, &cycles) in last[..jobs].iter().zip(&cycles[..jobs]) {
        due[bound as usize] += cycles as u32;
    }
}
