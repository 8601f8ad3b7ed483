// Which points are dropped, and the working levels.
ghost use Rattle.std.specs.Prelude.{◌≡◌, ◌<◌};
ghost use Rattle.model.specs.Limits.{max_frequency, max_power};
ghost use Rattle.model.specs.Outcome.{answer, and_then};
ghost use Rattle.model.specs.LevelTables.{ValidLevelTable};
ghost use Rattle.model.specs.SiteParameters.{alter_levels};
ghost use Rattle.model.specs.Points.{drops as drops_point, dropped as is_dropped, working};
ghost use Rattle.model.specs.Processors.{working_of, processor_of, read_processor};
ghost use Rattle.level_tables.specs.Tables.{levels_in};
ghost use Rattle.levels.specs.PointTables.{as_point, point_table, table_of, points_of, Ordered, SmallPoints, dropped_from, working_read};

use crate::points::{Point, PointTable, all_points, no_points, point_at};
use level_tables::read_levels;
use model::{MAX_LEVELS, MAX_POINTS};
use parameters::alter_levels;

// The working points of a level table in bytes, with running levels up to the highest. Any bytes are answered; a table that is
// refused has none, and so has one that has not as many running levels.
pub fn read_working_levels(levels: &[u8], highest: u32) -> PointTable
    ensures { result ≡ point_table (working_read (read_processor levels.now highest)) }
{
    match read_levels(levels) {
        Ok(table) => working_up_to(&table.frequencies, &table.voltages, table.count, highest),
        Err(_) => no_points(),
    }
}

// The working points over a decoded level table, with its running levels up to the highest.
fn working_up_to(
    frequencies: &[u64; MAX_LEVELS],
    voltages: &[u64; MAX_LEVELS],
    count: usize,
    highest: u32,
) -> PointTable
    requires { ValidLevelTable (levels_in count frequencies.now voltages.now) }
    ensures { result ≡ point_table (working_read (and_then (alter_levels highest (levels_in count frequencies.now voltages.now)) λ levels. answer (processor_of levels))) }
{
    match alter_levels(frequencies, count, highest) {
        Ok(kept) => working_levels(frequencies, voltages, kept),
        Err(_) => no_points(),
    }
}

// The working points of a level table: idling, and then the working levels upward.
pub fn working_levels(
    frequencies: &[u64; MAX_LEVELS],
    voltages: &[u64; MAX_LEVELS],
    count: usize,
) -> PointTable
    requires { ValidLevelTable (levels_in count frequencies.now voltages.now) }
    ensures { result ≡ point_table (working_of (processor_of (levels_in count frequencies.now voltages.now))) }
{
    let all = all_points(frequencies, voltages, count);
    let all_frequencies = all.frequencies;
    let all_powers = all.powers;
    working_points(&all_frequencies, &all_powers, all.count)
}

// The points that are not dropped.
fn working_points(
    frequencies: &[u64; MAX_POINTS],
    powers: &[u64; MAX_POINTS],
    count: usize,
) -> PointTable
    requires { SmallPoints (table_of count frequencies.now powers.now) }
    ensures { result ≡ point_table (working (points_of (table_of count frequencies.now powers.now))) }
{
    let mut table = no_points();
    for i in 0..count {
        if !dropped(frequencies, powers, count, i) {
            let at = table.count;
            table.frequencies[at] = frequencies[i];
            table.powers[at] = powers[i];
            table.count = at + 1;
        }
    }
    table
}

// Whether some lower and some higher point drop point b.
fn dropped(
    frequencies: &[u64; MAX_POINTS],
    powers: &[u64; MAX_POINTS],
    count: usize,
    b: usize,
) -> bool
    requires small_points { SmallPoints (table_of count frequencies.now powers.now) }
    requires b_lt_count { b < count }
    ensures { result ≡ is_dropped (points_of (table_of count frequencies.now powers.now)) b }
{
    for a in 0..b {
        if dropped_from(frequencies, powers, count, a, b) {
            return true;
        }
    }
    false
}

// Whether the lower point a and some higher point drop point b.
fn dropped_from(
    frequencies: &[u64; MAX_POINTS],
    powers: &[u64; MAX_POINTS],
    count: usize,
    a: usize,
    b: usize,
) -> bool
    requires small_points { SmallPoints (table_of count frequencies.now powers.now) }
    requires a_lt_b { (a < b) × (b < count) }
    ensures { result ≡ dropped_from (points_of (table_of count frequencies.now powers.now)) a b }
{
    let lower = point_at(frequencies, powers, a);
    let point = point_at(frequencies, powers, b);
    for c in b + 1..count {
        if drops(lower, point, point_at(frequencies, powers, c)) {
            return true;
        }
    }
    false
}

// (p_b − p_a)(f_c − f_a) ≥ (p_c − p_a)(f_b − f_a), p power, f frequency.
fn drops(a: Point, b: Point, c: Point) -> bool
    requires ordered { Ordered a.frequency b.frequency c.frequency max_frequency }
    requires ordered_2 { Ordered a.power b.power c.power max_power }
    ensures { result ≡ drops_point (as_point a) (as_point b) (as_point c) }
{
    (c.power - a.power) * (b.frequency - a.frequency)
        <= (b.power - a.power) * (c.frequency - a.frequency)
}
