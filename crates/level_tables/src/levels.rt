// Reading levels: refusals 1 to 5, 31 and 32. And a level's power.
ghost use Rattle.std.specs.Prelude.{◌≡◌, ℕ, ◌<◌, ◌≤◌};
ghost use Rattle.model.specs.Limits.{max_levels, max_frequency, max_voltage};
ghost use Rattle.model.specs.Refusals.{fault_of};
ghost use Rattle.model.specs.Levels.{idling, fault_of_level};
ghost use Rattle.model.specs.Points.{power_of};
ghost use Rattle.model.specs.LevelTables.{idle_entries, or_fault, draw_fault, table_fault, read_levels};
ghost use Rattle.reading.specs.Tables.{returned_count, SmallNumbers};
ghost use Rattle.level_tables.specs.Tables.{level_table, levels_in, checked_levels, checked_entries};

use crate::idle_entry::{idle_entries, idle_power};
use model::{Fault, Level, MAX_FREQUENCY, MAX_LEVELS, MAX_VOLTAGE, Refusal};
use reading::{column16, number16};

// The entries of a level table: how many there are, their frequencies and their voltages, zeros past the last entry.
#[derive(Clone, Copy)]
pub struct LevelTable {
    pub count: usize,
    pub frequencies: [u64; MAX_LEVELS],
    pub voltages: [u64; MAX_LEVELS],
}

// Reads a level table. Any bytes, of any length, are answered.
pub fn read_levels(bytes: &[u8]) -> Result<LevelTable, Refusal>
    ensures { result ≡ level_table (read_levels bytes.now) }
{
    if bytes.len() < 2 {
        return Err(Fault::LevelsTooShort.at(0));
    }
    let count = number16(bytes, 0) as usize;
    if count < 1 {
        return Err(Fault::LevelCount.at(0));
    }
    if count > MAX_LEVELS {
        return Err(Fault::LevelCount.at(0));
    }
    if bytes.len() != 2 + 4 * count {
        return Err(Fault::LevelsLength.at(0));
    }
    let frequencies = column16(bytes, 2, 2, count);
    let voltages = column16(bytes, 2 + 2 * count, 2, count);
    check_levels(&frequencies, &voltages, count)?;
    Ok(LevelTable {
        count,
        frequencies,
        voltages,
    })
}

// 31, and then the entries: the first running level, and those after it.
fn check_levels(
    frequencies: &[u64; MAX_LEVELS],
    voltages: &[u64; MAX_LEVELS],
    count: usize,
) -> Result<usize, Refusal>
    requires { (1 ≤ count) × (count ≤ max_levels) × SmallNumbers max_levels voltages.now }
    ensures { result ≡ returned_count (checked_levels count frequencies.now voltages.now) }
{
    let entry = Level {
        frequency: frequencies[0],
        voltage: voltages[0],
    };
    let first = idle_entries(entry);
    if count == first {
        return Err(Fault::IdleAlone.at(0));
    }
    let level = Level {
        frequency: frequencies[first],
        voltage: voltages[first],
    };
    if let Some(fault) = first_fault(idle_power(entry), level) {
        return Err(fault.at(first as u32));
    }
    check_later(frequencies, voltages, first, count)
}

// Goes through the entries after the first running level one after another.
fn check_later(
    frequencies: &[u64; MAX_LEVELS],
    voltages: &[u64; MAX_LEVELS],
    first: usize,
    count: usize,
) -> Result<usize, Refusal>
    requires first_lt_count { (first < count) × (count ≤ max_levels) }
    requires first_value { first ≡ idle_entries (levels_in count frequencies.now voltages.now) }
    requires by_index { (k : ℕ) → k ≤ first → table_fault (levels_in count frequencies.now voltages.now) k ≡ 0 }
    ensures { result ≡ returned_count (checked_entries count frequencies.now voltages.now) }
{
    let mut before = Level {
        frequency: frequencies[first],
        voltage: voltages[first],
    };
    for i in first + 1..count {
        let this = Level {
            frequency: frequencies[i],
            voltage: voltages[i],
        };
        if let Some(fault) = level_fault(before, this) {
            return Err(fault.at(i as u32));
        }
        before = this;
    }
    Ok(count)
}

// What is at fault at the first running level: 4 and 5, with no level before it, and then 32.
fn first_fault(idle_power: u64, level: Level) -> Option<Fault>
    ensures { result ≡ fault_of (or_fault (fault_of_level idling level) (draw_fault idle_power level)) }
{
    let none = Level {
        frequency: 0,
        voltage: 0,
    };
    if let Some(fault) = level_fault(none, level) {
        return Some(fault);
    }
    if power_of(level.frequency, level.voltage) <= idle_power {
        return Some(Fault::IdleDraw);
    }
    None
}

// A level's power is frequency × voltage × voltage.
pub fn power_of(frequency: u64, voltage: u64) -> u64
    requires { (frequency ≤ max_frequency) × (voltage ≤ max_voltage) }
    ensures { result ≡ power_of (record { frequency = frequency; voltage = voltage }) }
{
    frequency * voltage * voltage
}

// What is at fault at a level after another, the frequency first.
fn level_fault(before: Level, this: Level) -> Option<Fault>
    ensures { result ≡ fault_of (fault_of_level before this) }
{
    if this.frequency < 1 {
        return Some(Fault::LevelFrequency);
    }
    if this.frequency > MAX_FREQUENCY {
        return Some(Fault::LevelFrequency);
    }
    if this.frequency <= before.frequency {
        return Some(Fault::LevelFrequency);
    }
    if this.voltage < 1 {
        return Some(Fault::LevelVoltage);
    }
    if this.voltage > MAX_VOLTAGE {
        return Some(Fault::LevelVoltage);
    }
    if this.voltage < before.voltage {
        return Some(Fault::LevelVoltage);
    }
    None
}
