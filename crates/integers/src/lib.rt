// Signed numbers.
#![tactic(auto)]

ghost use Rattle.std.specs.Prelude.{◌≡◌, nat_abs};

// A number without its sign. The least number has one too: one more than it can be negated.
pub fn magnitude(value: i64) -> u64
    ensures { result ≡ nat_abs value }
{
    if value < 0 {
        -(value + 1) as u64 + 1
    } else {
        value as u64
    }
}
