// The energy figure of a plan, from the loads of its intervals.
#![tactic(auto)]

ghost use Rattle.std.specs.Prelude.{◌≡◌, ◌-◌, ◌*◌, ◌≤◌, min, take};
ghost use Rattle.model.specs.Limits.{max_frequency, max_power, max_deadline};
ghost use Rattle.levels.specs.PointTables.{points_of, SmallPoints};
ghost use Rattle.intervals.specs.Times.{SmallBounds};
ghost use Rattle.energy.specs.Figures.{figure_of_loads, band_total_of, idle_of};

use intervals::interval_count;
use levels::PointTable;
use model::{MAX_BOUNDS, MAX_INTERVALS};

// Each band's total over all intervals, rounded down, and added; with what idling draws over the whole time.
pub fn energy_figure(
    working: PointTable,
    times: &[u64; MAX_BOUNDS],
    bounds: usize,
    loads: &[u64; MAX_INTERVALS],
) -> u64
    requires small_points { SmallPoints working }
    requires small_bounds { SmallBounds bounds times.now }
    ensures { result ≡ figure_of_loads (points_of working) (take bounds times.now) loads.now }
{
    let mut figure = idle_energy(times, bounds, working.powers[0]);
    for k in 0..working.count - 1 {
        let lower = working.frequencies[k];
        let upper = working.frequencies[k + 1];
        let gap = upper - lower;
        let power = working.powers[k + 1];
        let rise = power - working.powers[k];
        figure += band_total(times, bounds, loads, lower, gap) * rise / gap;
    }
    figure
}

// What idling draws from the first bound to the last.
fn idle_energy(times: &[u64; MAX_BOUNDS], bounds: usize, idle_power: u64) -> u64
    requires small_bounds { SmallBounds bounds times.now }
    requires idle_power_le_max_power { idle_power ≤ max_power }
    ensures { result ≡ idle_of (take bounds times.now) idle_power }
{
    if bounds == 0 {
        return 0;
    }
    (times[bounds - 1] - times[0]) * idle_power
}

// The cycles that a band takes over all intervals.
fn band_total(
    times: &[u64; MAX_BOUNDS],
    bounds: usize,
    loads: &[u64; MAX_INTERVALS],
    lower: u64,
    gap: u64,
) -> u64
    requires small_bounds { SmallBounds bounds times.now }
    requires lower_le_max_frequency { (lower ≤ max_frequency) × (gap ≤ max_frequency) }
    ensures { result ≡ band_total_of (take bounds times.now) loads.now lower gap }
{
    let mut total = 0;
    // no zip: each length lies between two bounds that stand side by side
    for i in 0..interval_count(bounds) {
        total += band_cycles(times[i + 1] - times[i], loads[i], lower, gap);
    }
    total
}

// In an interval a band takes the cycles of the load above length × its lower frequency, up to length × gap.
fn band_cycles(length: u64, load: u64, lower: u64, gap: u64) -> u64
    requires { (length ≤ max_deadline) × (lower ≤ max_frequency) × (gap ≤ max_frequency) }
    ensures { result ≡ min (length * gap) (load - length * lower) }
{
    // no saturating_sub: it would have both products made where the load is below the band too, and took 1.5 times as long
    if load < length * lower {
        return 0;
    }
    (load - length * lower).min(length * gap)
}
