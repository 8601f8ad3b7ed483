// The idle entry that a level table may begin with: frequency 0, and the draw of idling in thousands of power units.
ghost use Rattle.std.specs.Prelude.{◌≡◌, [], ◌∷◌, ◌≤◌};
ghost use Rattle.model.specs.Limits.{max_power};
ghost use Rattle.model.specs.LevelTables.{idle_entries, idle_power_of};

use model::Level;

// How many idle entries a table has that begins with this entry: 1, or 0.
pub fn idle_entries(first: Level) -> usize
    ensures { (result ≡ idle_entries (first ∷ [])) × (result ≤ 1) }
{
    if first.frequency == 0 {
        return 1;
    }
    0
}

// What idling draws where a table begins with this entry. The bound is there so that the product has room in 64 bits; the draw of
// a valid table is below a level's power.
pub fn idle_power(first: Level) -> u64
    requires { first.voltage ≤ max_power }
    ensures { result ≡ idle_power_of (first ∷ []) }
{
    if first.frequency == 0 {
        return 1_000 * first.voltage;
    }
    0
}
