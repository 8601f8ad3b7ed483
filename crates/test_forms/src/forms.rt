// Small sites of several forms, made of drawn numbers.
ghost use Rattle.std.specs.Prelude.{◌<◌, ◌≤◌};

use crate::random::draw;
use model::{MAX_FREQUENCY, MAX_VOLTAGE};
use test_search::mixes::power_of;
use test_search::table::{COLUMN, JobColumns, LevelColumns, at_most, with_idle_entry};

// What the sites of a group have in common.
#[derive(Clone, Copy)]
pub enum Form {
    // So many jobs, with any windows.
    Any(u32),
    // Each window lies inside the one before it.
    Nested,
    // Jobs in pairs have the same window.
    Equal,
    // The first job has two ticks, and needs all that they serve at the top frequency, or a cycle more or less.
    Tight,
    // The upper two of three levels have the same voltage, so that the lower one of them is dropped.
    Dropped,
    // So many jobs, with any windows, and an idle entry in the level table.
    IdleDraw(u32),
    // Three jobs, with any windows, and an idle entry before three levels. The lower two of them have the same voltage, so
    // that the lowest is dropped only where idling draws nothing.
    Restored,
}

pub fn levels_of(form: Form, state: &mut u32) -> LevelColumns {
    match form {
        Form::Dropped => {
            let mut levels = small_levels(state);
            levels.count = 3;
            levels.voltages[2] = levels.voltages[1];
            levels
        }
        Form::IdleDraw(_) => idle_drawing(large_levels(state), state),
        Form::Restored => {
            let mut levels = large_levels(state);
            levels.count = 3;
            levels.voltages[1] = levels.voltages[0];
            idle_drawing(levels, state)
        }
        _ => small_levels(state),
    }
}

// One to three levels.
fn small_levels(state: &mut u32) -> LevelColumns {
    let count = 1 + draw(state, 3);
    let frequencies = climbing(state, 0, 1, 4);
    let voltages = climbing(state, 1, 0, 8);
    LevelColumns {
        count,
        frequencies,
        voltages,
    }
}

// One to three levels, the first of a power above 1,000, so that idling may draw something. The search has room for what
// the third one takes in ten ticks.
fn large_levels(state: &mut u32) -> LevelColumns {
    let count = 1 + draw(state, 3);
    let frequencies = climbing(state, 1, 1, 3);
    let voltages = climbing(state, 24, 0, 5);
    LevelColumns {
        count,
        frequencies,
        voltages,
    }
}

// The levels after an idle entry, of any draw below the first level's power.
fn idle_drawing(levels: LevelColumns, state: &mut u32) -> LevelColumns {
    let count = draws_below(levels.frequencies[0], levels.voltages[0]);
    with_idle_entry(levels, draw(state, count))
}

// How many draws, in thousands, are below a level's power.
fn draws_below(frequency: u32, voltage: u32) -> u32
    ensures { 0 < result }
{
    let power = power_of(
        at_most(frequency, MAX_FREQUENCY as u32) as u64,
        at_most(voltage, MAX_VOLTAGE as u32) as u64,
    );
    if power == 0 {
        return 1;
    }
    1 + ((power - 1) / 1_000) as u32
}

// A column that climbs from a start, by a least step and at most so much more at each entry.
fn climbing(state: &mut u32, start: u32, least: u32, spread: u32) -> [u32; COLUMN]
    requires { (start ≤ 24) × (least ≤ 1) × (0 < spread) × (spread ≤ 8) }
{
    let mut column = [0u32; COLUMN];
    let mut number = start;
    for entry in column.iter_mut() {
        number += least + draw(state, spread);
        *entry = number;
    }
    column
}

pub fn jobs_of(form: Form, levels: LevelColumns, state: &mut u32) -> JobColumns {
    match form {
        Form::Any(count) => any_jobs(count, state),
        Form::Nested => several_jobs(nested_windows(state), state),
        Form::Equal => several_jobs(equal_windows(state), state),
        Form::Tight => tight_jobs(top_of(levels), state),
        Form::Dropped => several_jobs(any_windows(state), state),
        Form::IdleDraw(count) => any_jobs(count, state),
        Form::Restored => any_jobs(3, state),
    }
}

fn any_jobs(count: u32, state: &mut u32) -> JobColumns {
    JobColumns {
        count,
        windows: any_windows(state),
        cycles: some_cycles(state, count),
    }
}

// Two to four jobs.
fn several_jobs(windows: [u32; COLUMN], state: &mut u32) -> JobColumns {
    let count = 2 + draw(state, 3);
    JobColumns {
        count,
        windows,
        cycles: some_cycles(state, count),
    }
}

fn some_cycles(state: &mut u32, count: u32) -> [u32; COLUMN] {
    let most = most_cycles(count);
    let mut cycles = [0u32; COLUMN];
    for entry in cycles.iter_mut() {
        *entry = 1 + draw(state, most);
    }
    cycles
}

// The most cycles of a job: fewer the more jobs there are, so that there are not too many cuts.
fn most_cycles(count: u32) -> u32
    ensures { (0 < result) × (result ≤ 20) }
{
    match count {
        0 | 1 => 20,
        2 => 10,
        3 => 7,
        _ => 5,
    }
}

fn any_windows(state: &mut u32) -> [u32; COLUMN] {
    let mut windows = [0u32; COLUMN];
    for window in windows.chunks_exact_mut(2) {
        let release = draw(state, 6);
        window[0] = release;
        window[1] = release + 1 + draw(state, 5);
    }
    windows
}

fn nested_windows(state: &mut u32) -> [u32; COLUMN] {
    let mut windows = [0u32; COLUMN];
    let mut release = 0;
    let mut deadline = 8;
    for window in windows.chunks_exact_mut(2) {
        window[0] = release;
        window[1] = deadline;
        release += draw(state, 2);
        deadline -= draw(state, 2);
    }
    windows
}

fn equal_windows(state: &mut u32) -> [u32; COLUMN] {
    let release = draw(state, 6);
    let end = release + 1 + draw(state, 5);
    let other = draw(state, 6);
    let other_end = other + 1 + draw(state, 5);
    [
        release, end, release, end, other, other_end, other, other_end,
    ]
}

fn tight_jobs(top: u32, state: &mut u32) -> JobColumns
    requires { (1 ≤ top) × (top ≤ 16) }
{
    let release = draw(state, 6);
    let mut windows = any_windows(state);
    windows[0] = release;
    windows[1] = release + 2;
    let mut jobs = several_jobs(windows, state);
    jobs.cycles[0] = 2 * top + draw(state, 3) - 1;
    jobs
}

// The frequency of the top level.
fn top_of(levels: LevelColumns) -> u32
    ensures { (1 ≤ result) × (result ≤ 16) }
{
    let count = levels.count as usize;
    if count == 0 {
        return 1;
    }
    if count > COLUMN {
        return 1;
    }
    let frequency = levels.frequencies[count - 1];
    if frequency == 0 {
        return 1;
    }
    at_most(frequency, 16)
}
