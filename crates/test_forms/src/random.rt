// Numbers that look random and are the same in each run.
ghost use Rattle.std.specs.Prelude.{◌<◌};

// The next state of a linear congruential generator, and a number below a count from the state's upper bits.
pub(crate) fn draw(state: &mut u32, count: u32) -> u32
    requires { 0 < count }
    ensures { result < count }
{
    let next = (*state as u64 * 1_103_515_245 + 12_345) % 2_147_483_648;
    *state = next as u32;
    (next / 65_536) as u32 % count
}
