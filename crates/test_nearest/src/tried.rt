// Rooms tried by planning: with the cycles of its room added to one job the set fits, and with one more it is overfull.
use crate::printed;
use model::Parameters;
use reading::number32;
use test_support::encode::{ROOM, put};
use test_support::show;

// The jobs of a list, one after another.
pub(crate) fn rooms(levels: &[u8], jobs: &mut [u8], parameters: Parameters, list: &[u32]) {
    show::words(b" tried");
    for pair in list.chunks_exact(2) {
        room(levels, jobs, parameters, pair[0], pair[1]);
    }
}

// The three sums make up 2 to the power 32, so that the job has its cycles again at the end.
fn room(levels: &[u8], jobs: &mut [u8], parameters: Parameters, job: u32, room: u32) {
    add(jobs, job, room);
    try_plan(levels, jobs, parameters);
    add(jobs, job, 1);
    try_plan(levels, jobs, parameters);
    add(jobs, job, 4_294_967_295 - room);
}

fn try_plan(levels: &[u8], jobs: &[u8], parameters: Parameters) {
    printed::plan(planning::plan(
        levels,
        jobs,
        &[0; 2],
        parameters,
        &mut [0; ROOM],
        &mut [0; ROOM],
        &mut [0; ROOM],
    ));
}

// Adds to the cycles of a job, which have four bytes and stand behind the windows. What passes 32 bits is dropped.
fn add(jobs: &mut [u8], job: u32, cycles: u32) {
    // a job table has 2 + 12n bytes
    let place = 2 + 8 * (jobs.len() / 12 % 65_536) + 4 * job as usize;
    if place + 4 <= jobs.len() {
        let sum = number32(jobs, place) % 4_294_967_296 + cycles as u64;
        put(jobs, place, 4, (sum % 4_294_967_296) as u32);
    }
}
