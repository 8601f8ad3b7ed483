// Reading jobs: refusals 6 to 10.
ghost use Rattle.std.specs.Prelude.{◌≡◌, ◌≤◌, replicate};
ghost use Rattle.model.specs.Limits.{max_jobs};
ghost use Rattle.model.specs.Refusals.{fault_of};
ghost use Rattle.model.specs.Jobs.{fault_of_job, read_jobs};
ghost use Rattle.reading.specs.Tables.{returned_count};
ghost use Rattle.job_tables.specs.Tables.{job_table, checked_jobs, DecodedJobs};

use model::{Fault, Job, MAX_CYCLES, MAX_DEADLINE, MAX_JOBS, Refusal};
use reading::{column32, number16};

// The jobs of a table: how many there are, their releases, deadlines and cycles, zeros past the last one.
#[derive(Clone, Copy)]
pub struct JobTable {
    pub count: usize,
    pub releases: [u64; MAX_JOBS],
    pub deadlines: [u64; MAX_JOBS],
    pub cycles: [u64; MAX_JOBS],
}

// Reads a job table. Any bytes, of any length, are answered.
pub fn read_jobs(bytes: &[u8]) -> Result<JobTable, Refusal>
    ensures { result ≡ job_table (read_jobs bytes.now) }
{
    let mut releases = [0u64; MAX_JOBS];
    let mut deadlines = [0u64; MAX_JOBS];
    let mut cycles = [0u64; MAX_JOBS];
    let count = decode_jobs(bytes, &mut releases, &mut deadlines, &mut cycles)?;
    Ok(JobTable {
        count,
        releases,
        deadlines,
        cycles,
    })
}

// Decodes a job table into three arrays of zeros, which are lent so that nothing is copied, and answers how many jobs there are. Where it
// is refused they may hold anything.
pub fn decode_jobs(
    bytes: &[u8],
    releases: &mut [u64; MAX_JOBS],
    deadlines: &mut [u64; MAX_JOBS],
    cycles: &mut [u64; MAX_JOBS],
) -> Result<usize, Refusal>
    requires { (releases.old ≡ replicate max_jobs 0) × (deadlines.old ≡ replicate max_jobs 0) × (cycles.old ≡ replicate max_jobs 0) }
    ensures { DecodedJobs (read_jobs bytes.now) result releases.new deadlines.new cycles.new }
{
    if bytes.len() < 2 {
        return Err(Fault::JobsTooShort.at(0));
    }
    let count = number16(bytes, 0) as usize;
    if count > MAX_JOBS {
        return Err(Fault::JobCount.at(0));
    }
    if bytes.len() != 2 + 12 * count {
        return Err(Fault::JobsLength.at(0));
    }
    column32(bytes, 2, 8, count, releases);
    column32(bytes, 6, 8, count, deadlines);
    column32(bytes, 2 + 8 * count, 4, count, cycles);
    check_jobs(releases, deadlines, cycles, count)
}

// Goes through the entries one after another.
fn check_jobs(
    releases: &[u64; MAX_JOBS],
    deadlines: &[u64; MAX_JOBS],
    cycles: &[u64; MAX_JOBS],
    count: usize,
) -> Result<usize, Refusal>
    requires { count ≤ max_jobs }
    ensures { result ≡ returned_count (checked_jobs count releases.now deadlines.now cycles.now) }
{
    for i in 0..count {
        let job = Job {
            release: releases[i],
            deadline: deadlines[i],
            cycles: cycles[i],
        };
        if let Some(fault) = job_fault(job) {
            return Err(fault.at(i as u32));
        }
    }
    Ok(count)
}

// What is at fault at an entry, the window first.
fn job_fault(job: Job) -> Option<Fault>
    ensures { result ≡ fault_of (fault_of_job job) }
{
    if job.deadline > MAX_DEADLINE {
        return Some(Fault::JobWindow);
    }
    if job.deadline <= job.release {
        return Some(Fault::JobWindow);
    }
    if job.cycles < 1 {
        return Some(Fault::JobCycles);
    }
    if job.cycles > MAX_CYCLES {
        return Some(Fault::JobCycles);
    }
    None
}
