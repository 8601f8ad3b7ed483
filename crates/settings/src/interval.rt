// The setting of one interval: refusals 25 and 26, after 35.
ghost use Rattle.std.specs.Prelude.{◌≡◌, ◌≤◌};
ghost use Rattle.model.specs.Limits.{max_deadline};
ghost use Rattle.model.specs.Outcome.{and_then};
ghost use Rattle.model.specs.LevelTables.{ValidLevelTable};
ghost use Rattle.model.specs.SiteParameters.{alter_levels};
ghost use Rattle.model.specs.Bands.{Curve};
ghost use Rattle.model.specs.Processors.{processor_of};
ghost use Rattle.model.specs.Setting.{setting_of, setting_for, setting as setting_of_bytes, band_of};
ghost use Rattle.level_tables.specs.Tables.{levels_in};
ghost use Rattle.levels.specs.PointTables.{points_of, SmallPoints};
ghost use Rattle.settings.specs.Settings.{setting_answer, answered, Fits};

use level_tables::read_levels;
use levels::{PointTable, working_levels};
use model::{Fault, MAX_DEADLINE, MAX_LEVELS, Refusal};
use parameters::alter_levels;

// The band counts from 1; zeros for load 0.
#[derive(Clone, Copy, Debug, PartialEq, Eq)]
pub struct IntervalSetting {
    pub band: u32,
    pub extra: u64,
    pub gap: u64,
}

// The setting of an interval of some length for some load, with running levels up to the highest. Any bytes and any numbers are
// answered.
pub fn setting(
    levels: &[u8],
    highest: u32,
    length: u32,
    load: u64,
) -> Result<IntervalSetting, Refusal>
    ensures { result ≡ setting_answer (setting_of_bytes levels.now highest length load) }
{
    let table = read_levels(levels)?;
    setting_up_to(
        &table.frequencies,
        &table.voltages,
        table.count,
        highest,
        length as u64,
        load,
    )
}

// The setting over a decoded level table, with its running levels up to the highest.
fn setting_up_to(
    frequencies: &[u64; MAX_LEVELS],
    voltages: &[u64; MAX_LEVELS],
    count: usize,
    highest: u32,
    length: u64,
    load: u64,
) -> Result<IntervalSetting, Refusal>
    requires { ValidLevelTable (levels_in count frequencies.now voltages.now) }
    ensures { result ≡ setting_answer (and_then (alter_levels highest (levels_in count frequencies.now voltages.now)) λ levels. setting_for (processor_of levels) length load) }
{
    let kept = alter_levels(frequencies, count, highest)?;
    setting_in(frequencies, voltages, kept, length, load)
}

// The setting over a level table whose running levels are all allowed.
fn setting_in(
    frequencies: &[u64; MAX_LEVELS],
    voltages: &[u64; MAX_LEVELS],
    count: usize,
    length: u64,
    load: u64,
) -> Result<IntervalSetting, Refusal>
    requires { ValidLevelTable (levels_in count frequencies.now voltages.now) }
    ensures { result ≡ setting_answer (setting_for (processor_of (levels_in count frequencies.now voltages.now)) length load) }
{
    if length < 1 {
        return Err(Fault::IntervalLength.at(0));
    }
    if length > MAX_DEADLINE {
        return Err(Fault::IntervalLength.at(0));
    }
    if length * frequencies[count - 1] < load {
        return Err(Fault::LoadAboveTop.at(0));
    }
    let working = working_levels(frequencies, voltages, count);
    Ok(setting_of(working, length, load))
}

// The setting of a load that fits, over the working points.
pub fn setting_of(working: PointTable, length: u64, load: u64) -> IntervalSetting
    requires small_points { SmallPoints working × Curve (points_of working) }
    requires length_le_max_deadline { length ≤ max_deadline }
    requires fits { Fits (points_of working) length load }
    ensures { result ≡ answered (setting_of (points_of working) length load) }
{
    if load == 0 {
        return IntervalSetting {
            band: 0,
            extra: 0,
            gap: 0,
        };
    }
    let k = band_of(working, length, load);
    let lower = working.frequencies[k];
    IntervalSetting {
        band: k as u32 + 1,
        extra: load - length * lower,
        gap: working.frequencies[k + 1] - lower,
    }
}

// The band of a load above 0 that fits, counted from 0: the first whose upper end, over the length, is not below the load.
fn band_of(working: PointTable, length: u64, load: u64) -> usize
    requires small_points { SmallPoints working }
    requires length_le_max_deadline { length ≤ max_deadline }
    ensures { result ≡ band_of (points_of working) length load }
{
    let last = working.count - 1;
    for k in 0..last {
        if load <= length * working.frequencies[k + 1] {
            return k;
        }
    }
    last
}
