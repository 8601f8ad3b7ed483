// The room of the intervals: what each still takes up to the end of a band.
ghost use Rattle.std.specs.Prelude.{◌≡◌, ℕ, ◌+◌, ◌*◌, ◌<◌, ◌≤◌, length};
ghost use Rattle.model.specs.Limits.{max_intervals, max_deadline, max_frequency};
ghost use Rattle.workloads.specs.Arrays.{numbers_in};

use model::MAX_INTERVALS;

// The room grows by what a band adds, whose ends are `gap` apart.
pub(crate) fn add_band(
    size: &[u64; MAX_INTERVALS],
    intervals: usize,
    gap: u64,
    room: &mut [u64; MAX_INTERVALS],
)
    requires intervals_le_max_intervals { (intervals ≤ max_intervals) × (length room.old ≡ max_intervals) }
    requires by_index { (i : ℕ) → i < intervals → numbers_in room.old i + numbers_in size.now i * gap ≤ max_deadline * max_frequency }
    ensures { (length room.new ≡ max_intervals)
        × ((i : ℕ) → i < intervals → numbers_in room.new i ≡ numbers_in room.old i + numbers_in size.now i * gap)
        × ((i : ℕ) → intervals ≤ i → numbers_in room.new i ≡ numbers_in room.old i) }
{
    // no zip: after one of iter_mut nothing is known of what was written
    for i in 0..intervals {
        room[i] += size[i] * gap;
    }
}

// The loads take the place of the room: they are what it lacks to what the intervals hold at a frequency.
pub(crate) fn loads_of(
    size: &[u64; MAX_INTERVALS],
    intervals: usize,
    frequency: u64,
    room: &mut [u64; MAX_INTERVALS],
)
    requires intervals_le_max_intervals { (intervals ≤ max_intervals) × (length room.old ≡ max_intervals) }
    requires by_index { (i : ℕ) → i < intervals → (numbers_in size.now i * frequency ≤ max_deadline * max_frequency) × (numbers_in room.old i ≤ numbers_in size.now i * frequency) }
    ensures { (length room.new ≡ max_intervals)
        × ((i : ℕ) → i < intervals → numbers_in room.new i + numbers_in room.old i ≡ numbers_in size.now i * frequency)
        × ((i : ℕ) → intervals ≤ i → numbers_in room.new i ≡ numbers_in room.old i) }
{
    // no zip: after one of iter_mut nothing is known of what was written
    for i in 0..intervals {
        room[i] = size[i] * frequency - room[i];
    }
}
