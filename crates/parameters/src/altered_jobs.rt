// Jobs with ticks kept free before each deadline and a margin on their cycles: refusals 35 and 36.
ghost use Rattle.std.specs.Prelude.{◌≡◌, ◌+◌, ◌-◌, ◌≤◌};
ghost use Rattle.model.specs.Limits.{max_cycles, max_free, max_margin};
ghost use Rattle.model.specs.Refusals.{fault_of};
ghost use Rattle.model.specs.SiteParameters.{margin_on, altered_fault, alter_jobs};
ghost use Rattle.job_tables.specs.Tables.{jobs_in};
ghost use Rattle.parameters.specs.AlteredArrays.{ValidArrays, AlteredIn};

use model::{Fault, MAX_CYCLES, MAX_FREE, MAX_JOBS, MAX_MARGIN, Refusal};

// Alters jobs that stand in arrays, in place, and answers how many there are. Where they are refused the arrays may hold anything.
pub fn alter_jobs(
    releases: &[u64; MAX_JOBS],
    deadlines: &mut [u64; MAX_JOBS],
    cycles: &mut [u64; MAX_JOBS],
    count: usize,
    free: u32,
    margin: u32,
) -> Result<usize, Refusal>
    requires { ValidArrays count releases.now deadlines.old cycles.old }
    ensures { AlteredIn (alter_jobs free margin (jobs_in count releases.now deadlines.old cycles.old)) result releases.now deadlines.new cycles.new }
{
    if free as u64 > MAX_FREE {
        return Err(Fault::Parameter.at(0));
    }
    if margin as u64 > MAX_MARGIN {
        return Err(Fault::Parameter.at(0));
    }
    alter_each(
        releases,
        deadlines,
        cycles,
        count,
        free as u64,
        margin as u64,
    )
}

// The jobs one after another, where both numbers are in range.
fn alter_each(
    releases: &[u64; MAX_JOBS],
    deadlines: &mut [u64; MAX_JOBS],
    cycles: &mut [u64; MAX_JOBS],
    count: usize,
    free: u64,
    margin: u64,
) -> Result<usize, Refusal>
    requires valid_arrays { ValidArrays count releases.now deadlines.old cycles.old }
    requires free_le_max_free { (free ≤ max_free) × (margin ≤ max_margin) }
    ensures { AlteredIn (alter_jobs free margin (jobs_in count releases.now deadlines.old cycles.old)) result releases.now deadlines.new cycles.new }
{
    for j in 0..count {
        let deadline = earlier(deadlines[j], free);
        let needed = with_margin(cycles[j], margin);
        if let Some(fault) = altered_fault(releases[j], deadline, needed) {
            return Err(fault.at(j as u32));
        }
        deadlines[j] = deadline;
        cycles[j] = needed;
    }
    Ok(count)
}

// A deadline with ticks kept free before it; 0 where it has not as many.
fn earlier(deadline: u64, free: u64) -> u64
    ensures { result ≡ deadline - free }
{
    if deadline < free {
        return 0;
    }
    deadline - free
}

// Cycles with the margin on them, rounded up.
fn with_margin(cycles: u64, margin: u64) -> u64
    requires { (cycles ≤ max_cycles) × (margin ≤ max_margin) }
    ensures { result ≡ cycles + margin_on margin cycles }
{
    cycles + (margin * cycles + 99) / 100
}

// What is at fault at a job as it is altered.
fn altered_fault(release: u64, deadline: u64, cycles: u64) -> Option<Fault>
    ensures { result ≡ fault_of (altered_fault (record { release = release; deadline = deadline; cycles = cycles })) }
{
    if deadline <= release {
        return Some(Fault::AlteredJob);
    }
    if cycles > MAX_CYCLES {
        return Some(Fault::AlteredJob);
    }
    None
}
