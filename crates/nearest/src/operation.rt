// The operation: from a level table, a job table and the parameters to a list of the jobs with their rooms.
ghost use Rattle.std.specs.Prelude.{◌≡◌, List, ℕ, ◌≤◌};
ghost use Rattle.std.proofs.Math.Option.{none};
ghost use Rattle.model.specs.declared.Job.{Job};
ghost use Rattle.model.specs.Limits.{max_frequency};
ghost use Rattle.model.specs.Sites.{Tables};
ghost use Rattle.model.specs.Windows.{earliest_overfull};
ghost use Rattle.site.specs.SiteTables.{HoldsTables};
ghost use Rattle.job_rooms.specs.RoomArrays.{RoomArrays};
ghost use Rattle.nearest.specs.Nearest.{nearest_for, list_fitting};
ghost use Rattle.nearest.specs.TablesInArrays.{ValidPair, InArrays};
ghost use Rattle.nearest.specs.NearestAnswers.{Answers, NearestContract};

use intervals::{bound_numbers, bounds_of, interval_count, open_sets};
use job_rooms::job_rooms;
use job_sets::SET_WORDS;
use model::{Fault, MAX_BOUNDS, MAX_JOBS, Parameters};
use room_order::list_rooms;
use site::{TablePair, read_tables};
use spare::{NoAnswer, window_spare};
use windows::earliest_overfull;

// Lists for each job its number and its room, the most cycles that can be added to it alone, the smallest room first, ties by job number, and
// answers the length of the list in numbers. Any bytes, any numbers and a list of any length are answered.
pub fn nearest(
    levels: &[u8],
    jobs: &[u8],
    parameters: Parameters,
    list: &mut [u32],
) -> Result<u64, NoAnswer>
    ensures { NearestContract levels.now jobs.now parameters list.old list.new result }
{
    let mut releases = [0u64; MAX_JOBS];
    let mut deadlines = [0u64; MAX_JOBS];
    let mut cycles = [0u64; MAX_JOBS];
    let tables = read_tables(
        levels,
        jobs,
        parameters,
        &mut releases,
        &mut deadlines,
        &mut cycles,
    )?;
    nearest_of_tables(tables, &releases, &deadlines, &cycles, list)
}

// The operation where levels and jobs were read: the bounds of the jobs and the sets of the open ones are found.
fn nearest_of_tables<'a>(
    tables: TablePair,
    releases: &'a [u64; MAX_JOBS],
    deadlines: &'a [u64; MAX_JOBS],
    cycles: &[u64; MAX_JOBS],
    list: &mut [u32],
) -> Result<u64, NoAnswer>
    requires { (t : Tables) × ValidPair t × HoldsTables t tables releases.now deadlines.now cycles.now }
    ensures { (t : Tables) → ValidPair t → HoldsTables t tables releases.now deadlines.now cycles.now
        → Answers (nearest_for t) list.old list.new result }
{
    let count = tables.jobs;
    let mut times = [0u64; MAX_BOUNDS];
    let mut first = [0u8; MAX_JOBS];
    let mut last = [0u8; MAX_JOBS];
    let mut sets = [0u64; SET_WORDS];
    let bounds = bounds_of(releases, deadlines, count, &mut times);
    bound_numbers(releases, count, &times, bounds, &mut first);
    bound_numbers(deadlines, count, &times, bounds, &mut last);
    open_sets(&first, &last, count, &mut sets);
    nearest_or_window(
        count,
        tables.top,
        releases,
        deadlines,
        cycles,
        &times,
        interval_count(bounds),
        &last,
        &sets,
        list,
    )
}

// The earliest overfull window, or the list.
fn nearest_or_window(
    count: usize,
    top: u64,
    releases: &[u64; MAX_JOBS],
    deadlines: &[u64; MAX_JOBS],
    cycles: &[u64; MAX_JOBS],
    times: &[u64; MAX_BOUNDS],
    intervals: usize,
    last: &[u8; MAX_JOBS],
    sets: &[u64; SET_WORDS],
    list: &mut [u32],
) -> Result<u64, NoAnswer>
    requires { (t : Tables) × (bounds : List ℕ) × InArrays t bounds count top releases.now deadlines.now cycles.now times.now intervals last.now sets.now }
    ensures { (t : Tables) (bounds : List ℕ) → InArrays t bounds count top releases.now deadlines.now cycles.now times.now intervals last.now sets.now
        → Answers (nearest_for t) list.old list.new result }
{
    let test = earliest_overfull(times, cycles, sets, intervals, top);
    if let Some(window) = test.found {
        let spare = window_spare(
            releases,
            deadlines,
            cycles,
            count,
            top,
            window.start,
            window.end,
        );
        return Err(NoAnswer::Overfull {
            start: window.start as u32,
            end: window.end as u32,
            spare,
        });
    }
    list_fitting(count, top, cycles, times, intervals, last, sets, list)
}

// The list of a set that fits, where there is room for it.
fn list_fitting(
    count: usize,
    top: u64,
    cycles: &[u64; MAX_JOBS],
    times: &[u64; MAX_BOUNDS],
    intervals: usize,
    last: &[u8; MAX_JOBS],
    sets: &[u64; SET_WORDS],
    list: &mut [u32],
) -> Result<u64, NoAnswer>
    requires by_index { (jobs : List Job) × (bounds : List ℕ) × RoomArrays jobs bounds times.now cycles.now sets.now last.now count intervals
        × (earliest_overfull top jobs ≡ none) }
    requires top_le_max_frequency { top ≤ max_frequency }
    ensures { (jobs : List Job) (bounds : List ℕ) → RoomArrays jobs bounds times.now cycles.now sets.now last.now count intervals
        → earliest_overfull top jobs ≡ none → Answers (list_fitting top jobs) list.old list.new result }
{
    let wanted = 2 * count;
    if list.len() < wanted {
        return Err(Fault::ListRoom.at(wanted as u32).into());
    }
    let mut rooms = [0u64; MAX_JOBS];
    job_rooms(times, last, cycles, sets, count, intervals, top, &mut rooms);
    list_rooms(&rooms, count, list);
    Ok(wanted as u64)
}
