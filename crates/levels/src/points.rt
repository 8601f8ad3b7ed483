// Idling and the running levels as points in plain arrays. Point 0 is idling, and running level i is point i + 1.
ghost use Rattle.std.specs.Prelude.{◌≡◌, [], ◌<◌};
ghost use Rattle.model.specs.Limits.{max_points};
ghost use Rattle.model.specs.LevelTables.{ValidLevelTable};
ghost use Rattle.model.specs.Processors.{all_points, processor_of};
ghost use Rattle.level_tables.specs.Tables.{levels_in};
ghost use Rattle.levels.specs.PointTables.{as_point, point_in, point_table};

use level_tables::{idle_entries, idle_power, power_of};
use model::{Level, MAX_LEVELS, MAX_POINTS};

// Frequencies and powers of a list of points, zeros past the last.
#[derive(Clone, Copy)]
pub struct PointTable {
    pub count: usize,
    pub frequencies: [u64; MAX_POINTS],
    pub powers: [u64; MAX_POINTS],
}

// A frequency and the power drawn at it.
#[derive(Clone, Copy)]
pub(crate) struct Point {
    pub frequency: u64,
    pub power: u64,
}

// All points of a level table: idling, and then the running levels upward.
pub(crate) fn all_points(
    frequencies: &[u64; MAX_LEVELS],
    voltages: &[u64; MAX_LEVELS],
    count: usize,
) -> PointTable
    requires { ValidLevelTable (levels_in count frequencies.now voltages.now) }
    ensures { result ≡ point_table (all_points (processor_of (levels_in count frequencies.now voltages.now))) }
{
    let entry = Level {
        frequency: frequencies[0],
        voltage: voltages[0],
    };
    let mut table = PointTable {
        count: 1,
        frequencies: [0; MAX_POINTS],
        powers: [0; MAX_POINTS],
    };
    table.powers[0] = idle_power(entry);
    for i in idle_entries(entry)..count {
        let at = table.count;
        table.frequencies[at] = frequencies[i];
        table.powers[at] = power_of(frequencies[i], voltages[i]);
        table.count = at + 1;
    }
    table
}

// A table without points.
pub(crate) fn no_points() -> PointTable
    ensures { result ≡ point_table [] }
{
    PointTable {
        count: 0,
        frequencies: [0; MAX_POINTS],
        powers: [0; MAX_POINTS],
    }
}

// Point number i.
pub(crate) fn point_at(
    frequencies: &[u64; MAX_POINTS],
    powers: &[u64; MAX_POINTS],
    i: usize,
) -> Point
    requires { i < max_points }
    ensures { as_point result ≡ point_in frequencies.now powers.now i }
{
    Point {
        frequency: frequencies[i],
        power: powers[i],
    }
}
