// The least common multiple of the periods.
ghost use Rattle.std.specs.Prelude.{◌<◌};
ghost use Rattle.tasks.specs.Tasks.{task_entries};
ghost use Rattle.task_tables.specs.TaskBytes.{TasksRead};
ghost use Rattle.task_tables.specs.FoundMultiples.{CommonFound, MultipleFound};

use crate::task_table::task_at;
use tasks::MAX_MULTIPLE;

// The least common multiple of all periods; none where that is above the limit. The multiple of the first periods only grows
// with further ones, so the search stops where it is above.
pub fn multiple_of(bytes: &[u8], count: usize) -> Option<u64>
    requires { TasksRead bytes.now count }
    ensures { MultipleFound (task_entries bytes.now) result }
{
    let mut multiple: u64 = 1;
    for i in 0..count {
        let task = task_at(bytes, count, i);
        multiple = common_multiple(multiple, task.period)?;
    }
    Some(multiple)
}

// The least common multiple of two numbers; none where that is above the limit. Going by multiples of the larger takes the
// fewer steps.
fn common_multiple(one: u64, other: u64) -> Option<u64>
    requires { (0 < one) × (0 < other) }
    ensures { CommonFound one other result }
{
    if one < other {
        first_multiple(other, one)
    } else {
        first_multiple(one, other)
    }
}

// The first multiple of `step` that `divisor` divides; none where that is above the limit.
fn first_multiple(step: u64, divisor: u64) -> Option<u64>
    requires { (0 < step) × (0 < divisor) }
    ensures { CommonFound step divisor result }
{
    let mut multiple = step;
    while multiple <= MAX_MULTIPLE {
        if multiple % divisor == 0 {
            return Some(multiple);
        }
        multiple += step;
    }
    None
}
