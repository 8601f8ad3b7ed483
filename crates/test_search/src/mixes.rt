// The least energy of a load, from the given table alone: the clock stays on two points in turn, each a level or idling.
// Every pair of points is tried, so that nothing is said of bands or of dropped levels.
ghost use Rattle.std.specs.Prelude.{◌*◌, ◌≤◌};
ghost use Rattle.model.specs.Limits.{max_levels, max_frequency, max_voltage, max_power};
ghost use Rattle.test_search.specs.Sizes.{SmallEnergy, SmallPoint, most_served};

use crate::table::{COLUMN, LevelColumns, at_most};
use model::{MAX_FREQUENCY, MAX_VOLTAGE};

// An energy. A denominator of 0 says that there is none.
#[derive(Clone, Copy)]
pub struct Fraction {
    pub numerator: u64,
    pub denominator: u64,
}

// The most that stands in the 16 bits of a draw.
const MOST_DRAW: u32 = 65_535;

#[derive(Clone, Copy)]
struct Point {
    frequency: u64,
    power: u64,
}

// The least energy of a load in an interval.
pub fn least_mix(levels: LevelColumns, length: u8, load: u32) -> Fraction
    ensures { SmallEnergy result.numerator result.denominator }
{
    let frequencies = levels.frequencies;
    let voltages = levels.voltages;
    let count = at_most(levels.count, 8) as usize;
    let mut least = none();
    for low in 0..=count {
        least = smaller(
            least,
            least_from(&frequencies, &voltages, count, low, length, load),
        );
    }
    least
}

// The least energy where the lower point is a given one.
fn least_from(
    frequencies: &[u32; COLUMN],
    voltages: &[u32; COLUMN],
    count: usize,
    low: usize,
    length: u8,
    load: u32,
) -> Fraction
    requires { (count ≤ max_levels) × (low ≤ max_levels) }
    ensures { SmallEnergy result.numerator result.denominator }
{
    let below = point_at(frequencies, voltages, low);
    let mut least = none();
    for high in 0..=count {
        let above = point_at(frequencies, voltages, high);
        least = smaller(least, mix(below, above, length, load));
    }
    least
}

fn none() -> Fraction
    ensures { SmallEnergy result.numerator result.denominator }
{
    Fraction {
        numerator: 1,
        denominator: 0,
    }
}

// Point 0 is idling, and the others are the entries. An idle entry is idling once more, at the same power.
fn point_at(frequencies: &[u32; COLUMN], voltages: &[u32; COLUMN], i: usize) -> Point
    requires { i ≤ max_levels }
    ensures { SmallPoint result.frequency result.power }
{
    if i == 0 {
        return idling(frequencies[0], voltages[0]);
    }
    if frequencies[i - 1] == 0 {
        return idling(0, voltages[i - 1]);
    }
    level(frequencies[i - 1], voltages[i - 1])
}

// Idling in a table that begins with this entry: at a draw in thousands where it is an idle entry, otherwise at none.
fn idling(frequency: u32, draw: u32) -> Point
    ensures { SmallPoint result.frequency result.power }
{
    if frequency > 0 {
        return Point {
            frequency: 0,
            power: 0,
        };
    }
    Point {
        frequency: 0,
        power: 1_000 * at_most(draw, MOST_DRAW) as u64,
    }
}

fn level(frequency: u32, voltage: u32) -> Point
    ensures { SmallPoint result.frequency result.power }
{
    let cycles = at_most(frequency, MAX_FREQUENCY as u32) as u64;
    Point {
        frequency: cycles,
        power: power_of(cycles, at_most(voltage, MAX_VOLTAGE as u32) as u64),
    }
}

pub fn power_of(frequency: u64, voltage: u64) -> u64
    requires { (frequency ≤ max_frequency) × (voltage ≤ max_voltage) }
    ensures { result ≤ max_power }
{
    frequency * (voltage * voltage)
}

// The energy of a load for which the clock stays on two points in turn. There is none where the load is not between what
// the two serve.
fn mix(low: Point, high: Point, length: u8, load: u32) -> Fraction
    requires { SmallPoint low.frequency low.power × SmallPoint high.frequency high.power }
    ensures { SmallEnergy result.numerator result.denominator }
{
    if high.frequency <= low.frequency {
        return none();
    }
    let least = served(length, low.frequency);
    let most = served(length, high.frequency);
    let wanted = load as u64;
    if wanted < least {
        return none();
    }
    if most < wanted {
        return none();
    }
    Fraction {
        numerator: weighted(most - wanted, low.power) + weighted(wanted - least, high.power),
        denominator: high.frequency - low.frequency,
    }
}

// The cycles that a frequency serves in so many ticks.
fn served(length: u8, frequency: u64) -> u64
    requires { frequency ≤ max_frequency }
    ensures { result ≤ most_served }
{
    length as u64 * frequency
}

// A power, weighted by the cycles that the other point is away from the load.
fn weighted(cycles: u64, power: u64) -> u64
    requires { (cycles ≤ most_served) × (power ≤ max_power) }
    ensures { result ≤ most_served * max_power }
{
    cycles * power
}

// The smaller one of two energies, compared multiplied out.
fn smaller(a: Fraction, b: Fraction) -> Fraction
    requires { SmallEnergy a.numerator a.denominator × SmallEnergy b.numerator b.denominator }
    ensures { SmallEnergy result.numerator result.denominator }
{
    if b.numerator * a.denominator < a.numerator * b.denominator {
        b
    } else {
        a
    }
}
