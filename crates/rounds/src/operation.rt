// The operation: from a task table's bytes to a job table in the lent buffer.
ghost use Rattle.std.specs.Prelude.{length};
ghost use Rattle.task_tables.specs.TaskBytes.{TasksRead};
ghost use Rattle.rounds.specs.RoundAnswers.{RoundsContract};

use job_writing::write_jobs;
use laying::lay_out;
use model::{Fault, MAX_JOBS, Refusal};
use task_tables::{multiple_of, read_tasks};

// The length of the job table that was written, in bytes, and the multiple after which the round repeats.
#[derive(Clone, Copy, Debug, PartialEq, Eq)]
pub struct LaidOut {
    pub length: u32,
    pub multiple: u32,
}

// Lays out the jobs of one round. Any bytes and any buffer, of any length, are answered.
pub fn rounds(tasks: &[u8], jobs: &mut [u8]) -> Result<LaidOut, Refusal>
    ensures { RoundsContract tasks.now jobs.old jobs.new result }
{
    let count = read_tasks(tasks)?;
    lay_out_tasks(tasks, count, jobs)
}

// Lays out the jobs of tasks that were read: 29, 30 and 12, or the job table.
fn lay_out_tasks(tasks: &[u8], count: usize, jobs: &mut [u8]) -> Result<LaidOut, Refusal>
    requires { TasksRead tasks.now count }
    ensures { RoundsContract tasks.now jobs.old jobs.new result }
{
    let Some(multiple) = multiple_of(tasks, count) else {
        return Err(Fault::RoundLength.at(0));
    };
    let mut releases = [0u64; MAX_JOBS];
    let mut deadlines = [0u64; MAX_JOBS];
    let mut cycles = [0u64; MAX_JOBS];
    let Some(listed) = lay_out(
        tasks,
        count,
        multiple,
        &mut releases,
        &mut deadlines,
        &mut cycles,
    ) else {
        return Err(Fault::RoundJobs.at(0));
    };
    let length = 2 + 12 * listed;
    if jobs.len() < length {
        return Err(Fault::PlanRoom.at(length as u32));
    }
    write_jobs(&releases, &deadlines, &cycles, listed, jobs);
    Ok(LaidOut {
        length: length as u32,
        multiple: multiple as u32,
    })
}
