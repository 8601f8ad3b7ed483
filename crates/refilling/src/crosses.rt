// What must cross each bound at the start: the cycles to be run before it by jobs that are due after it.
ghost use Rattle.std.specs.Prelude.{◌≡◌, ℕ, ◌+◌, ◌≤◌, length};
ghost use Rattle.model.specs.Limits.{max_bounds};
ghost use Rattle.model.specs.Sum.{sum};
ghost use Rattle.workloads.specs.Arrays.{numbers_in};
ghost use Rattle.refilling.specs.Crosses.{due_to, CanCross};

use model::{MAX_BOUNDS, MAX_INTERVALS};

// Makes of the cycles due at each bound what must cross it: the loads before it less the cycles due by it.
pub(crate) fn add_loads(
    loads: &[u64; MAX_INTERVALS],
    intervals: usize,
    cross: &mut [u32; MAX_BOUNDS],
)
    requires { (jobs : ℕ) × (last : ℕ → ℕ) × (cycles : ℕ → ℕ) × CanCross jobs intervals last cycles loads.now cross.old }
    ensures { (jobs : ℕ) (last cycles : ℕ → ℕ) → CanCross jobs intervals last cycles loads.now cross.old
        → (length cross.new ≡ max_bounds)
        × ((b : ℕ) → b ≤ intervals → numbers_in cross.new b + due_to jobs last cycles b ≡ sum b (numbers_in loads.now)) }
{
    let mut rest = 0u64;
    for i in 0..intervals {
        rest = rest + loads[i] - cross[i + 1] as u64;
        cross[i + 1] = rest as u32;
    }
}
