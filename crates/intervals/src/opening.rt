// The open sets: for each interval the jobs that are open in it.
ghost use Rattle.std.specs.Prelude.{◌≡◌, ℕ, ◌<◌, ◌≤◌, get_or, replicate};
ghost use Rattle.model.specs.Limits.{max_jobs, max_intervals};
ghost use Rattle.job_sets.specs.IntervalSets.{set_words};
ghost use Rattle.intervals.specs.OpenSets.{open_sets};

use job_sets::{SET_WORDS, add_range};
use model::MAX_JOBS;

// Fills an array of zeros with the open sets. Job j is open in the intervals from its first up to, not including, its last.
pub fn open_sets(
    first: &[u8; MAX_JOBS],
    last: &[u8; MAX_JOBS],
    jobs: usize,
    sets: &mut [u64; SET_WORDS],
)
    requires jobs_le_max_jobs { (jobs ≤ max_jobs) × (sets.old ≡ replicate set_words 0) }
    requires by_index { (j : ℕ) → j < jobs → (get_or first.now j 0 ≤ max_intervals) × (get_or last.now j 0 ≤ max_intervals) }
    ensures { sets.new ≡ open_sets jobs first.now last.now }
{
    for j in 0..jobs {
        add_range(sets, first[j] as usize, last[j] as usize, j);
    }
}
