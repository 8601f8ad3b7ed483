// One share of the table, which has the share of job j in interval i at i × jobs + j, and the sets of the jobs with a share in
// each interval. Shares change here alone, and the sets with them.
ghost use Rattle.std.specs.Prelude.{◌≡◌, ◌+◌, ◌*◌, ◌^◌, ◌<◌, ◌≤◌, length, get_or};
ghost use Rattle.model.specs.Limits.{max_jobs, max_intervals};
ghost use Rattle.job_sets.specs.IntervalSets.{set_words, Added};
ghost use Rattle.paths.specs.Moves.{put_at, taken_at, Lessened};

use job_sets::SET_WORDS;

pub(crate) fn share_of(shares: &[u32], jobs: usize, interval: usize, job: usize) -> u64
    requires { interval * jobs + job < length shares.now }
    ensures { result ≡ get_or shares.now (interval * jobs + job) 0 }
{
    shares[interval * jobs + job] as u64
}

// Adds an amount to the share of a job, and the job to the interval's set.
pub fn put(
    shares: &mut [u32],
    holders: &mut [u64; SET_WORDS],
    jobs: usize,
    job: usize,
    interval: usize,
    amount: u32,
)
    requires job_in_bounds { (interval * jobs + job < length shares.old) × (get_or shares.old (interval * jobs + job) 0 + amount < 2 ^ 32) }
    requires interval_lt_max_intervals { (interval < max_intervals) × (job < max_jobs) × (length holders.old ≡ set_words) }
    ensures { (shares.new ≡ put_at shares.old (interval * jobs + job) amount)
        × Added holders.old holders.new interval job }
{
    let place = interval * jobs + job;
    shares[place] += amount;
    job_sets::add(holders, interval, job);
}

// Takes an amount from the share of a job, and the job out of the interval's set where no share is left.
pub(crate) fn take(
    shares: &mut [u32],
    holders: &mut [u64; SET_WORDS],
    jobs: usize,
    job: usize,
    interval: usize,
    amount: u32,
)
    requires job_in_bounds { (interval * jobs + job < length shares.old) × (amount ≤ get_or shares.old (interval * jobs + job) 0) }
    requires interval_lt_max_intervals { (interval < max_intervals) × (job < max_jobs) × (length holders.old ≡ set_words) }
    ensures { (shares.new ≡ taken_at shares.old (interval * jobs + job) amount)
        × Lessened holders.old holders.new interval job (get_or shares.old (interval * jobs + job) 0) amount }
{
    let place = interval * jobs + job;
    if shares[place] == amount {
        job_sets::remove(holders, interval, job);
    }
    shares[place] -= amount;
}
