// Writing a price list.
ghost use Rattle.std.specs.Prelude.{◌≡◌, ◌++◌, ℕ, suc, ◌+◌, ◌*◌, ◌<◌, ◌≤◌, length, get_or, drop};
ghost use Rattle.std.proofs.lemmas.List.Edits.{sets};
ghost use Rattle.model.specs.Limits.{max_intervals};
ghost use Rattle.price_writing.specs.PriceListBytes.{price_bytes, encode_prices};

use model::{MAX_BOUNDS, MAX_INTERVALS};
use writing::{put_column, put16};

// Writes the price list at the start of the buffer. Interval i goes from time i to time i + 1. The prices that are lent
// count from 0, those of a price list from 1.
pub fn write_prices(
    times: &[u64; MAX_BOUNDS],
    prices: &[u8; MAX_INTERVALS],
    intervals: usize,
    out: &mut [u8],
)
    requires intervals_le_max_intervals { (intervals ≤ max_intervals) × (2 + 5 * intervals ≤ length out.old) }
    requires by_index { (i : ℕ) → i < intervals → get_or prices.now i 0 < 255 }
    ensures { out.new ≡ encode_prices intervals (λ i. get_or times.now (suc i) 0) (λ i. suc (get_or prices.now i 0)) ++ drop (2 + 5 * intervals) out.old }
{
    put16(out, 0, intervals as u64);
    put_column(out, 2, &times[1..intervals + 1]);
    write_price_bytes(prices, intervals, out);
}

// Writes the prices of the intervals, counted from 1, after the ends.
fn write_price_bytes(prices: &[u8; MAX_INTERVALS], intervals: usize, out: &mut [u8])
    requires intervals_le_max_intervals { (intervals ≤ max_intervals) × (2 + 5 * intervals ≤ length out.old) }
    requires by_index { (i : ℕ) → i < intervals → get_or prices.now i 0 < 255 }
    ensures { out.new ≡ sets out.old (2 + 4 * intervals) (price_bytes intervals (λ i. suc (get_or prices.now i 0))) }
{
    for (i, price) in prices[..intervals].iter().enumerate() {
        out[2 + 4 * intervals + i] = *price + 1;
    }
}
