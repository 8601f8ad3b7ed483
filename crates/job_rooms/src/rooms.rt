// The room of each job, release after release.
ghost use Rattle.std.specs.Prelude.{◌≡◌, List, ℕ, ◌<◌, ◌≤◌, length, get_or};
ghost use Rattle.std.proofs.Math.Option.{none};
ghost use Rattle.model.specs.declared.Job.{Job};
ghost use Rattle.model.specs.Limits.{max_frequency, max_jobs, max_bounds};
ghost use Rattle.model.specs.Windows.{earliest_overfull};
ghost use Rattle.job_rooms.specs.AddedCycles.{room_of};
ghost use Rattle.job_rooms.specs.RoomArrays.{RoomArrays, CanSettle, Settled};

use crate::spares::{capacities, least_among, lower_spares};
use due_cycles::add_due;
use job_sets::{JobSet, SET_WORDS};
use model::{MAX_BOUNDS, MAX_JOBS};

// Finds the room of each job of a set that fits. Starts are taken one after another. For each end the least spare of the windows from the
// releases so far is kept, and what is due there of the jobs that are released at the start or later. The windows that have a job inside are
// those from its release or earlier to its deadline or later, so that its room is the least of these spares from its deadline on, once its
// release is taken.
pub fn job_rooms(
    times: &[u64; MAX_BOUNDS],
    last: &[u8; MAX_JOBS],
    cycles: &[u64; MAX_JOBS],
    sets: &[u64; SET_WORDS],
    count: usize,
    intervals: usize,
    top: u64,
    rooms: &mut [u64; MAX_JOBS],
)
    requires by_index { (jobs : List Job) × (bounds : List ℕ) × RoomArrays jobs bounds times.now cycles.now sets.now last.now count intervals
        × (earliest_overfull top jobs ≡ none) }
    requires top_le_max_frequency { (top ≤ max_frequency) × (length rooms.old ≡ max_jobs) }
    ensures { (jobs : List Job) (bounds : List ℕ) → RoomArrays jobs bounds times.now cycles.now sets.now last.now count intervals
        → earliest_overfull top jobs ≡ none
        → (j : ℕ) → j < length jobs → get_or rooms.new j 0 ≡ room_of top jobs j }
{
    if count == 0 {
        return;
    }
    let mut capacity = [0u32; MAX_BOUNDS];
    let mut due = [0u32; MAX_BOUNDS];
    let mut spares = [u32::MAX; MAX_BOUNDS];
    capacities(times, intervals, top, &mut capacity);
    add_due(last, cycles, count, &mut due);
    let mut from = JobSet::all();
    for start in 0..intervals {
        let here = job_sets::set_at(sets, start);
        let released = here.both(from);
        if !released.is_empty() {
            lower_spares(&capacity, &due, intervals, start, &mut spares);
            settle_rooms(released, last, cycles, intervals, &spares, &mut due, rooms);
        }
        from = from.less(here);
    }
}

// Settles the rooms of the jobs that are released at a start, whose windows are then all seen, and takes their cycles out of what is due.
fn settle_rooms(
    released: JobSet,
    last: &[u8; MAX_JOBS],
    cycles: &[u64; MAX_JOBS],
    intervals: usize,
    spares: &[u32; MAX_BOUNDS],
    due: &mut [u32; MAX_BOUNDS],
    rooms: &mut [u64; MAX_JOBS],
)
    requires can_settle { CanSettle released last.now cycles.now intervals due.old }
    requires due_len { (length due.old ≡ max_bounds) × (length rooms.old ≡ max_jobs) }
    ensures { Settled released last.now cycles.now intervals spares.now
        due.old rooms.old due.new rooms.new }
{
    let mut rest = released;
    while !rest.is_empty() {
        let job = rest.least();
        let end = last[job] as usize;
        rooms[job] = least_among(spares, end, intervals) as u64;
        due[end] -= cycles[job] as u32;
        rest = rest.without(job);
    }
}
