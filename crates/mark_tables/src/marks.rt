// Reading handover marks: refusal 34.
ghost use Rattle.std.specs.Prelude.{◌≡◌, ◌≤◌};
ghost use Rattle.model.specs.Limits.{max_marks};
ghost use Rattle.model.specs.Marks.{not_rising, read_marks};
ghost use Rattle.mark_tables.specs.Tables.{mark_table, marks_in};

use model::{Fault, MAX_MARKS, Refusal};
use reading::{column32, number16};

// The marks of a table: how many there are, and their ticks, zeros past the last one.
#[derive(Clone, Copy)]
pub struct MarkTable {
    pub count: usize,
    pub marks: [u64; MAX_MARKS],
}

// Reads a mark table. Any bytes, of any length, are answered.
pub fn read_marks(bytes: &[u8]) -> Result<MarkTable, Refusal>
    ensures { result ≡ mark_table (read_marks bytes.now) }
{
    if bytes.len() < 2 {
        return Err(Fault::Marks.at(0));
    }
    let count = number16(bytes, 0) as usize;
    if count > MAX_MARKS {
        return Err(Fault::Marks.at(0));
    }
    if bytes.len() != 2 + 4 * count {
        return Err(Fault::Marks.at(0));
    }
    let mut marks = [0u64; MAX_MARKS];
    column32(bytes, 2, 4, count, &mut marks);
    if not_rising(&marks, count) {
        return Err(Fault::Marks.at(0));
    }
    Ok(MarkTable { count, marks })
}

// Whether some mark is not above the one before it.
fn not_rising(marks: &[u64; MAX_MARKS], count: usize) -> bool
    requires { count ≤ max_marks }
    ensures { result ≡ not_rising (marks_in count marks.now) }
{
    for i in 0..count.saturating_sub(1) {
        if marks[i + 1] <= marks[i] {
            return true;
        }
    }
    false
}
