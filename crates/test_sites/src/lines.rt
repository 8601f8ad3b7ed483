// Sites whose answers document 01 gives, and sites where idling draws power.
use model::Level;
use parameters::as_given;
use planning::WrittenPlan;
use spare::NoAnswer;
use test_search::mixes::{Fraction, least_mix};
use test_search::table::{COLUMN, JobColumns, LevelColumns, put_jobs, put_levels, with_idle_entry};
use test_support::encode::ROOM;
use test_support::show;

// A mark table without marks.
const NO_MARKS: [u8; 2] = [0, 0];

// All five levels work in both tables; the first one with a job 0 1 of 401 cycles.
pub(crate) fn built_in() {
    working(
        b"first_built_in",
        built_in_columns(level_tables::first_built_in()),
    );
    working(
        b"second_built_in",
        built_in_columns(level_tables::second_built_in()),
    );
    one_job(
        b"first_built_in",
        built_in_columns(level_tables::first_built_in()),
        1,
        401,
    );
}

// What is right where document 01 names mistakes: a band charged at the square of its voltage; one level for a whole
// interval; overload looked for in the whole horizon alone; a level tested against its neighbours alone.
pub(crate) fn mistakes() {
    one_job(b"pair", pair(), 1, 4);
    one_job(b"pair", pair(), 3, 7);
    overfull(b"pair");
    one_job(b"far", far(), 1, 300);
}

// A draw brings a level back, is paid where a job leaves time to idle, and is paid between two jobs.
pub(crate) fn idle_draws() {
    working(b"equal_draw_0", equal(0));
    working(b"equal_draw_1", equal(1));
    working(b"first_built_in_draw_2429", first_drawing(2_429));
    one_job(b"equal_draw_0", equal(0), 2, 150);
    one_job(b"equal_draw_9", equal(9), 2, 150);
    one_job(b"first_built_in_draw_100", first_drawing(100), 2, 401);
    apart(b"equal_draw_0", equal(0));
    apart(b"equal_draw_9", equal(9));
}

// Levels 2 at 10 and 4 at 20.
fn pair() -> LevelColumns {
    LevelColumns {
        count: 2,
        frequencies: [2, 4, 0, 0, 0, 0, 0, 0],
        voltages: [10, 20, 0, 0, 0, 0, 0, 0],
    }
}

// Levels 100 at 10, 200 at 16, 300 at 17, 400 at 18 and 500 at 18: 300 is dropped by 100 and 500, and by no neighbour.
fn far() -> LevelColumns {
    LevelColumns {
        count: 5,
        frequencies: [100, 200, 300, 400, 500, 0, 0, 0],
        voltages: [10, 16, 17, 18, 18, 0, 0, 0],
    }
}

// Levels 100 at 10 and 200 at 10 after an idle entry.
fn equal(idle_draw: u32) -> LevelColumns {
    LevelColumns {
        count: 3,
        frequencies: [0, 100, 200, 0, 0, 0, 0, 0],
        voltages: [idle_draw, 10, 10, 0, 0, 0, 0, 0],
    }
}

// The first built-in table after an idle entry.
fn first_drawing(idle_draw: u32) -> LevelColumns {
    with_idle_entry(built_in_columns(level_tables::first_built_in()), idle_draw)
}

fn built_in_columns(levels: [Level; 5]) -> LevelColumns {
    let mut frequencies = [0u32; COLUMN];
    let mut voltages = [0u32; COLUMN];
    for (i, level) in levels.iter().enumerate() {
        frequencies[i] = (level.frequency % 65_536) as u32;
        voltages[i] = (level.voltage % 65_536) as u32;
    }
    LevelColumns {
        count: 5,
        frequencies,
        voltages,
    }
}

// Prints how many levels work.
fn working(name: &[u8], levels: LevelColumns) {
    show::words(name);
    show::words(b" working");
    working_in(&mut [0; ROOM], levels);
    show::end();
}

fn working_in(bytes: &mut [u8], levels: LevelColumns) {
    let length = put_levels(bytes, levels);
    let given = as_given(&bytes[..length]);
    let points = levels::read_working_levels(&bytes[..length], given.highest);
    let count = points.count;
    if count > 0 {
        show::number(count as u64 - 1);
    }
}

// Plans one job that is open from 0 on for so many ticks, and prints the figure, and the exact energy from the level
// table.
fn one_job(name: &[u8], levels: LevelColumns, length: u8, cycles: u32) {
    show::words(name);
    show::words(b" job 0");
    show::number(length as u64);
    show::number(cycles as u64);
    plan(
        levels,
        JobColumns {
            count: 1,
            windows: [0, length as u32, 0, 0, 0, 0, 0, 0],
            cycles: [cycles, 0, 0, 0, 0, 0, 0, 0],
        },
    );
    exact(least_mix(levels, length, cycles));
    show::end();
}

// A job that fits and one that does not, in a horizon that has room for both.
fn overfull(name: &[u8]) {
    show::words(name);
    show::words(b" jobs 0 10 1 and 2 3 5");
    plan(
        pair(),
        JobColumns {
            count: 2,
            windows: [0, 10, 2, 3, 0, 0, 0, 0],
            cycles: [1, 5, 0, 0, 0, 0, 0, 0],
        },
    );
    show::end();
}

// Two jobs, and three ticks between them in which none is open.
fn apart(name: &[u8], levels: LevelColumns) {
    show::words(name);
    show::words(b" jobs 0 2 150 and 5 6 100");
    plan(
        levels,
        JobColumns {
            count: 2,
            windows: [0, 2, 5, 6, 0, 0, 0, 0],
            cycles: [150, 100, 0, 0, 0, 0, 0, 0],
        },
    );
    show::end();
}

fn plan(levels: LevelColumns, jobs: JobColumns) {
    plan_in(&mut [0; ROOM], &mut [0; ROOM], levels, jobs);
}

fn plan_in(level_bytes: &mut [u8], job_bytes: &mut [u8], levels: LevelColumns, jobs: JobColumns) {
    let level_length = put_levels(level_bytes, levels);
    let job_length = put_jobs(job_bytes, jobs);
    let given = as_given(&level_bytes[..level_length]);
    print(planning::plan(
        &level_bytes[..level_length],
        &job_bytes[..job_length],
        &NO_MARKS,
        given,
        &mut [0; ROOM],
        &mut [0; ROOM],
        &mut [0u32; ROOM],
    ));
}

fn print(answer: Result<WrittenPlan, NoAnswer>) {
    match answer {
        Ok(made) => {
            show::words(b" figure");
            show::number(made.energy);
        }
        Err(NoAnswer::Overfull { start, end, spare }) => {
            show::words(b" overfull");
            show::number(start as u64);
            show::number(end as u64);
            show::signed(spare);
        }
        Err(NoAnswer::Refused(own)) => show::refused(own),
    }
}

// Prints an energy: the whole cycles_in, and the fraction that is left.
fn exact(energy: Fraction) {
    let numerator = energy.numerator;
    let denominator = energy.denominator;
    if denominator > 0 {
        show::words(b" exact");
        show::number(numerator / denominator);
        if numerator % denominator > 0 {
            show::words(b" and");
            show::number(numerator % denominator);
            show::words(b"/");
            io::print_decimal(show::STDOUT, denominator);
        }
    }
}
