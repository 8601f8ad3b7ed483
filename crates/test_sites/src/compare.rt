// Planning and the check against the search.
use model::Refusal;
use parameters::as_given;
use spare::NoAnswer;
use std::num::wrapping_add_u64;
use test_search::cuts::in_interval;
use test_search::intervals::intervals_of;
use test_search::search::{ENERGIES, OVERLOADED, SCALE, energies_of, energy_of, least_energy};
use test_search::table::{JobColumns, LevelColumns, MarkColumn, put_jobs, put_levels, put_marks};
use test_support::encode::ROOM;
use walking::Step;

// Whether a plan came out, whether everything agrees with the search, and the plan's exact energy, multiplied out.
#[derive(Clone, Copy)]
pub(crate) struct Outcome {
    pub planned: bool,
    pub agrees: bool,
    pub energy: u64,
}

pub(crate) fn compare(levels: LevelColumns, jobs: JobColumns, marks: MarkColumn) -> Outcome {
    let intervals = intervals_of(jobs, marks);
    let energies = energies_of(levels, intervals);
    let least = least_energy(jobs, intervals, &energies);
    compare_in(
        &mut [0; ROOM],
        &mut [0; ROOM],
        &mut [0; ROOM],
        levels,
        jobs,
        marks,
        &energies,
        least,
    )
}

// The tables in bytes, and planning.
fn compare_in(
    level_bytes: &mut [u8],
    job_bytes: &mut [u8],
    mark_bytes: &mut [u8],
    levels: LevelColumns,
    jobs: JobColumns,
    marks: MarkColumn,
    energies: &[u32; ENERGIES],
    least: u64,
) -> Outcome {
    let level_length = put_levels(level_bytes, levels);
    let job_length = put_jobs(job_bytes, jobs);
    let mark_length = put_marks(mark_bytes, marks);
    compare_plan(
        &mut [0; ROOM],
        &mut [0; ROOM],
        &mut [0u32; ROOM],
        &level_bytes[..level_length],
        &job_bytes[..job_length],
        &mark_bytes[..mark_length],
        energies,
        least,
    )
}

// A plan comes out exactly where the search found a cut.
fn compare_plan(
    plan: &mut [u8],
    prices: &mut [u8],
    shares: &mut [u32],
    levels: &[u8],
    jobs: &[u8],
    marks: &[u8],
    energies: &[u32; ENERGIES],
    least: u64,
) -> Outcome {
    let given = as_given(levels);
    let answer = planning::plan(levels, jobs, marks, given, plan, prices, shares);
    match answer {
        Ok(made) => {
            let plan_length = io::count((4 + 6 * made.steps as usize) as isize, plan);
            let price_length = io::count((2 + 5 * made.intervals as usize) as isize, prices);
            let written = &plan[..plan_length];
            let exact = energy_of(energies, loads_of(written));
            let accepted = accepts(
                levels,
                jobs,
                marks,
                written,
                &prices[..price_length],
                made.energy,
            );
            Outcome {
                planned: true,
                agrees: agrees(exact, least, made.energy, accepted),
                energy: exact,
            }
        }
        Err(
            NoAnswer::Overfull {
                start: _,
                end: _,
                spare: _,
            },
        ) => Outcome {
            planned: false,
            agrees: least == OVERLOADED,
            energy: 0,
        },
        Err(NoAnswer::Refused(_)) => Outcome {
            planned: false,
            agrees: false,
            energy: 0,
        },
    }
}

// The plan's exact energy is the least one, the figure is at most that and less than three below it, since small sites
// have at most three levels, and the check accepts.
fn agrees(exact: u64, least: u64, figure: u64, accepted: bool) -> bool {
    if least == OVERLOADED {
        return false;
    }
    if exact != least {
        return false;
    }
    if exact / SCALE < figure {
        return false;
    }
    if exact / SCALE - figure > 2 {
        return false;
    }
    accepted
}

// Whether the check accepts the plan and answers the same figure.
fn accepts(
    levels: &[u8],
    jobs: &[u8],
    marks: &[u8],
    plan: &[u8],
    prices: &[u8],
    figure: u64,
) -> bool {
    let given = as_given(levels);
    audit::check(levels, jobs, marks, given, plan, prices) == Ok(figure)
}

// The loads of a written plan. Its steps are those of four jobs in eight intervals at most.
fn loads_of(plan: &[u8]) -> u64 {
    let mut loads = 0;
    for position in 0..32 {
        loads = wrapping_add_u64(loads, step_load(walking::step_at(plan, position)));
    }
    loads
}

fn step_load(answer: Result<Option<Step>, Refusal>) -> u64 {
    match answer {
        Ok(Some(step)) => in_interval(step.cycles, (step.interval % 8) as u8),
        _ => 0,
    }
}
