// The jobs that touch a span, as sets, and the nearest deadline.
ghost use Rattle.std.specs.Prelude.{◌≡◌, ℕ, ◌<◌, ◌≤◌, Bool, get_or, leb};
ghost use Rattle.std.proofs.Math.Option.{Option as Nearest};
ghost use Rattle.model.specs.Limits.{max_jobs, max_deadline};
ghost use Rattle.model.specs.Search.{smaller};
ghost use Rattle.job_sets.specs.JobSets.{set_below};
ghost use Rattle.spans.specs.SpanAnswers.{nearest_answer};
ghost use Rattle.spans.specs.TouchedIn.{opens_at, inside_at, nearest_in};

use job_sets::JobSet;
use model::MAX_JOBS;

// The jobs open somewhere in a span.
pub fn open_within(
    releases: &[u64; MAX_JOBS],
    deadlines: &[u64; MAX_JOBS],
    count: usize,
    start: u64,
    end: u64,
) -> JobSet
    requires { count ≤ max_jobs }
    ensures { result ≡ set_below count (opens_at releases.now deadlines.now start end) }
{
    members_where(count, |j| releases[j] < end && start < deadlines[j])
}

// The jobs wholly inside a span.
pub fn inside_within(
    releases: &[u64; MAX_JOBS],
    deadlines: &[u64; MAX_JOBS],
    count: usize,
    start: u64,
    end: u64,
) -> JobSet
    requires { count ≤ max_jobs }
    ensures { result ≡ set_below count (inside_at releases.now deadlines.now start end) }
{
    members_where(count, |j| start <= releases[j] && deadlines[j] <= end)
}

// The jobs below a number that pass a test, whatever the test is.
fn members_where<F: Fn(usize) -> bool>(count: usize, test: F) -> JobSet
    requires { (count ≤ max_jobs) × ((j : ℕ) → j < count → F.pre test j) }
    ensures { (passes : ℕ → Bool) → ((j : ℕ) → (b : Bool) → j < count → F.post test j b → b ≡ passes j) → result ≡ set_below count passes }
{
    let mut set = JobSet::none();
    for j in 0..count {
        if test(j) {
            set = set.with(j);
        }
    }
    set
}

// The nearest deadline at or after a start, or none.
pub fn nearest_deadline(deadlines: &[u64; MAX_JOBS], count: usize, start: u64) -> Option<u32>
    requires { (count ≤ max_jobs) × ((j : ℕ) → j < count → get_or deadlines.now j 0 ≤ max_deadline) }
    ensures { result ≡ nearest_answer (nearest_in deadlines.now count start) }
{
    let mut nearest = None;
    for deadline in &deadlines[..count] {
        nearest = nearer(nearest, *deadline, start);
    }
    nearest
}

// The nearer of what was found and a deadline, which counts where it is at or after the start.
fn nearer(found: Option<u32>, deadline: u64, start: u64) -> Option<u32>
    requires { deadline ≤ max_deadline }
    ensures { (least : Nearest ℕ) → found ≡ nearest_answer least → result ≡ nearest_answer (smaller (leb start deadline) deadline least) }
{
    if deadline < start {
        return found;
    }
    match found {
        None => Some(deadline as u32),
        Some(least) => {
            if deadline < least as u64 {
                Some(deadline as u32)
            } else {
                Some(least)
            }
        }
    }
}
