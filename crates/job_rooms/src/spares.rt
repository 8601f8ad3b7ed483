// The least spares of windows by their end, as the start moves on.
ghost use Rattle.std.specs.Prelude.{◌≡◌, ℕ, ◌*◌, ◌^◌, ◌<◌, ◌≤◌, length, get_or};
ghost use Rattle.model.specs.Limits.{max_intervals, max_bounds};
ghost use Rattle.job_rooms.specs.Spares.{CanLower, Lowered, LeastAmong};

use model::MAX_BOUNDS;

// Fills an array with what the top frequency gives before each bound, from tick 0 on. All of these fit 32 bits.
pub(crate) fn capacities(
    times: &[u64; MAX_BOUNDS],
    intervals: usize,
    top: u64,
    capacity: &mut [u32; MAX_BOUNDS],
)
    requires { (intervals ≤ max_intervals) × (length capacity.old ≡ max_bounds) × ((i : ℕ) → i ≤ intervals → get_or times.now i 0 * top < 2 ^ 32) }
    ensures { (i : ℕ) → i ≤ intervals → get_or capacity.new i 0 ≡ get_or times.now i 0 * top }
{
    // no zip: after one of iter_mut nothing is known of what was written
    for i in 0..=intervals {
        capacity[i] = (times[i] * top) as u32;
    }
}

// Lowers the least spare of each end to that of the window from a start to it, where this is less. The sum of what is due is kept as the
// end moves on, on top of what the top frequency gives before the start: at every end it is that and the cycles of the jobs inside. No window
// is overfull, so that no sum is more than what the top frequency gives before the end.
pub(crate) fn lower_spares(
    capacity: &[u32; MAX_BOUNDS],
    due: &[u32; MAX_BOUNDS],
    intervals: usize,
    start: usize,
    spares: &mut [u32; MAX_BOUNDS],
)
    requires by_index { (need : ℕ → ℕ) × CanLower need capacity.now due.now intervals start }
    requires spares_len { length spares.old ≡ max_bounds }
    ensures { (need : ℕ → ℕ) → CanLower need capacity.now due.now intervals start
        → Lowered need capacity.now intervals start spares.old spares.new }
{
    let mut sum = capacity[start];
    for end in start + 1..=intervals {
        sum += due[end];
        spares[end] = spares[end].min(capacity[end] - sum);
    }
}

// The least of some numbers of an array, from one place up to another, this one with them.
pub(crate) fn least_among(numbers: &[u32; MAX_BOUNDS], first: usize, last: usize) -> u32
    requires { (first ≤ last) × (last < max_bounds) }
    ensures { LeastAmong numbers.now first last result }
{
    let mut least = numbers[first];
    for &number in &numbers[first + 1..=last] {
        least = least.min(number);
    }
    least
}
