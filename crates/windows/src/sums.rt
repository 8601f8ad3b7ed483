// Sums of cycles that are kept as the end of a window moves on.
ghost use Rattle.std.specs.Prelude.{◌≡◌, ◌+◌, ◌^◌, ◌<◌};
ghost use Rattle.job_sets.specs.JobSets.{member_count};
ghost use Rattle.windows.specs.RunningSums.{total_over};

use job_sets::JobSet;
use model::MAX_JOBS;

// A sum of the cycles of jobs, and how many jobs were added.
#[derive(Clone, Copy)]
pub struct CycleSum {
    pub cycles: u64,
    pub additions: usize,
}

// Adds the cycles of the jobs of a set, one after another.
pub(crate) fn add_jobs(cycles: &[u64; MAX_JOBS], set: JobSet, before: CycleSum) -> CycleSum
    requires { (before.cycles + total_over set cycles.now < 2 ^ 64) × (before.additions + member_count set < 2 ^ 64) }
    ensures { (result.cycles ≡ before.cycles + total_over set cycles.now) × (result.additions ≡ before.additions + member_count set) }
{
    let mut sum = before.cycles;
    let mut additions = before.additions;
    let mut rest = set;
    while !rest.is_empty() {
        let job = rest.least();
        sum += cycles[job];
        additions += 1;
        rest = rest.without(job);
    }
    CycleSum {
        cycles: sum,
        additions,
    }
}
