// Reading tasks: refusal 28. A task is read from its bytes wherever it is needed; nothing is copied.
ghost use Rattle.std.specs.Prelude.{◌≡◌, ◌<◌};
ghost use Rattle.model.specs.Refusals.{fault_of};
ghost use Rattle.model.specs.Outcome.{answer, by_entry};
ghost use Rattle.reading.specs.Tables.{returned_count};
ghost use Rattle.tasks.specs.Tasks.{task_at, task_entries, fault_of_task, task_fault, read_tasks};
ghost use Rattle.task_tables.specs.TaskBytes.{TaskBytes};

use model::{Fault, MAX_CYCLES, Refusal};
use reading::{number16, number32};
use tasks::{MAX_TASKS, Task};

// Reads a task table: how many tasks it has, or 28.
pub fn read_tasks(bytes: &[u8]) -> Result<usize, Refusal>
    ensures { result ≡ returned_count (read_tasks bytes.now) }
{
    if bytes.len() < 2 {
        return Err(Fault::TaskTable.at(0));
    }
    let count = number16(bytes, 0) as usize;
    if count > MAX_TASKS {
        return Err(Fault::TaskTable.at(0));
    }
    if bytes.len() != 2 + 16 * count {
        return Err(Fault::TaskTable.at(0));
    }
    check_tasks(bytes, count)
}

// Goes through the entries one after another.
fn check_tasks(bytes: &[u8], count: usize) -> Result<usize, Refusal>
    requires { TaskBytes bytes.now count }
    ensures { result ≡ returned_count (by_entry count (task_fault (task_entries bytes.now)) (answer (task_entries bytes.now))) }
{
    for i in 0..count {
        if let Some(fault) = task_fault(task_at(bytes, count, i)) {
            return Err(fault.at(i as u32));
        }
    }
    Ok(count)
}

// The task at an entry.
pub fn task_at(bytes: &[u8], count: usize, i: usize) -> Task
    requires task_bytes { TaskBytes bytes.now count }
    requires i_lt_count { i < count }
    ensures { result ≡ task_at bytes.now i }
{
    Task {
        phase: number32(bytes, 2 + 8 * i),
        period: number32(bytes, 2 + 8 * i + 4),
        deadline: number32(bytes, 2 + 8 * count + 8 * i),
        cycles: number32(bytes, 2 + 8 * count + 8 * i + 4),
    }
}

// What is at fault at a task. The phase is compared with what the deadline leaves of the period, so that no sum has to fit.
fn task_fault(task: Task) -> Option<Fault>
    ensures { result ≡ fault_of (fault_of_task task) }
{
    if task.deadline < 1 {
        return Some(Fault::TaskTable);
    }
    if task.period < task.deadline {
        return Some(Fault::TaskTable);
    }
    if task.period - task.deadline < task.phase {
        return Some(Fault::TaskTable);
    }
    if task.cycles < 1 {
        return Some(Fault::TaskTable);
    }
    if task.cycles > MAX_CYCLES {
        return Some(Fault::TaskTable);
    }
    None
}
