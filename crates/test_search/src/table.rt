// The tables of a small site, as columns of numbers and in bytes.
ghost use Rattle.std.specs.Prelude.{◌≡◌, ◌≤◌, min, length};
ghost use Rattle.io.specs.Counts.{IsPrefixLen};

use test_support::encode::put;

// How many numbers a column has room for: eight levels, the windows of four jobs, or eight marks.
pub const COLUMN: usize = 8;

pub const MOST_JOBS: usize = 4;

// The first entry may be an idle entry: frequency 0, and its draw in the place of the voltage. Entries past the count are not
// used.
#[derive(Clone, Copy)]
pub struct LevelColumns {
    pub count: u32,
    pub frequencies: [u32; COLUMN],
    pub voltages: [u32; COLUMN],
}

// The windows are release and deadline of each job in turn.
#[derive(Clone, Copy)]
pub struct JobColumns {
    pub count: u32,
    pub windows: [u32; COLUMN],
    pub cycles: [u32; COLUMN],
}

// Entries past the count are not used.
#[derive(Clone, Copy)]
pub struct MarkColumn {
    pub count: u32,
    pub ticks: [u32; COLUMN],
}

pub fn no_marks() -> MarkColumn {
    MarkColumn {
        count: 0,
        ticks: [0; COLUMN],
    }
}

pub fn at_most(number: u32, most: u32) -> u32
    ensures { result ≡ min number most }
{
    if number < most { number } else { most }
}

// A level table with an idle entry before its levels. The last of eight levels is left out.
pub fn with_idle_entry(levels: LevelColumns, idle_draw: u32) -> LevelColumns {
    let running = levels.frequencies;
    let running_voltages = levels.voltages;
    let frequencies = after(0, &running);
    let voltages = after(idle_draw, &running_voltages);
    LevelColumns {
        count: at_most(levels.count, 7) + 1,
        frequencies,
        voltages,
    }
}

// A number and then the column.
fn after(first: u32, column: &[u32; COLUMN]) -> [u32; COLUMN] {
    [
        first, column[0], column[1], column[2], column[3], column[4], column[5], column[6],
    ]
}

// Puts the level table in bytes, and answers its length.
pub fn put_levels(bytes: &mut [u8], levels: LevelColumns) -> usize
    ensures { IsPrefixLen result bytes.new }
{
    let frequencies = levels.frequencies;
    let voltages = levels.voltages;
    let count = levels.count;
    let first = put(bytes, 0, 2, count);
    let second = put_column(bytes, first, 2, &frequencies, count);
    put_column(bytes, second, 2, &voltages, count)
}

// Puts the job table in bytes, and answers its length.
pub fn put_jobs(bytes: &mut [u8], jobs: JobColumns) -> usize
    ensures { IsPrefixLen result bytes.new }
{
    let windows = jobs.windows;
    let cycles = jobs.cycles;
    let count = at_most(jobs.count, 4);
    let first = put(bytes, 0, 2, count);
    let second = put_column(bytes, first, 4, &windows, 2 * count);
    put_column(bytes, second, 4, &cycles, count)
}

// Puts the mark table in bytes, and answers its length.
pub fn put_marks(bytes: &mut [u8], marks: MarkColumn) -> usize
    ensures { IsPrefixLen result bytes.new }
{
    let ticks = marks.ticks;
    let count = marks.count;
    let first = put(bytes, 0, 2, count);
    put_column(bytes, first, 4, &ticks, count)
}

// Puts the first numbers of a column at a place, and answers the place after them.
fn put_column(
    bytes: &mut [u8],
    place: usize,
    width: usize,
    column: &[u32; COLUMN],
    count: u32,
) -> usize
    requires { place ≤ length bytes.old }
    ensures { IsPrefixLen result bytes.new }
{
    let used = at_most(count, 8) as usize;
    let mut at = place;
    for &number in &column[..used] {
        at = put(bytes, at, width, number);
    }
    at
}
