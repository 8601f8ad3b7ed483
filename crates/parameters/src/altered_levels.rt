// The level table up to the highest running level allowed: refusal 35.
ghost use Rattle.std.specs.Prelude.{◌≡◌, List, ℕ, ◌≤◌, length};
ghost use Rattle.model.specs.Limits.{max_levels};
ghost use Rattle.model.specs.LevelTables.{running_levels};
ghost use Rattle.model.specs.SiteParameters.{alter_levels, as_given};
ghost use Rattle.reading.specs.Tables.{returned_count};
ghost use Rattle.level_tables.specs.Tables.{levels_in};

use level_tables::{idle_entries, read_levels};
use model::{Fault, Level, MAX_LEVELS, Parameters, Refusal};

// How many entries of a level table in arrays stay, the idle entry with them, where running levels are allowed up to the highest. The
// frequencies tell: those that stay are the first, and voltages do not bear on it.
pub fn alter_levels(
    frequencies: &[u64; MAX_LEVELS],
    count: usize,
    highest: u32,
) -> Result<usize, Refusal>
    requires { (1 ≤ count) × (count ≤ max_levels) }
    ensures { (voltages : List ℕ) → result ≡ returned_count (alter_levels highest (levels_in count frequencies.now voltages)) }
{
    if highest < 1 {
        return Err(Fault::Parameter.at(0));
    }
    let first = Level {
        frequency: frequencies[0],
        voltage: 0,
    };
    let kept = idle_entries(first) + highest as usize;
    if kept > count {
        return Err(Fault::Parameter.at(0));
    }
    Ok(kept)
}

// The parameters with which a level table, and any job table, stay as they are given: all running levels, 0 and 0. Any bytes are
// answered; a table that is refused has no running levels.
pub fn as_given(levels: &[u8]) -> Parameters
    ensures { result ≡ as_given levels.now }
{
    let highest = match read_levels(levels) {
        Ok(table) => running_count(&table.frequencies, table.count),
        Err(_) => 0,
    };
    Parameters {
        highest,
        free: 0,
        margin: 0,
    }
}

// How many running levels a level table in arrays has.
fn running_count(frequencies: &[u64; MAX_LEVELS], count: usize) -> u32
    requires { (1 ≤ count) × (count ≤ max_levels) }
    ensures { (voltages : List ℕ) → result ≡ length (running_levels (levels_in count frequencies.now voltages)) }
{
    let first = Level {
        frequency: frequencies[0],
        voltage: 0,
    };
    (count - idle_entries(first)) as u32
}
