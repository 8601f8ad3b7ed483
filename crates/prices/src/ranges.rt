// The prices of a range of intervals.
ghost use Rattle.std.specs.Prelude.{◌≡◌, ◌≤◌, length};
ghost use Rattle.model.specs.Limits.{max_intervals};
ghost use Rattle.workloads.specs.Arrays.{numbers_in};
ghost use Rattle.prices.specs.RisingPrices.{Raised, IsBelow};

use model::MAX_INTERVALS;

// Raises the prices from start up to, not including, end to at least a price.
pub fn raise(prices: &mut [u8; MAX_INTERVALS], start: usize, end: usize, price: u8)
    requires { (length prices.old ≡ max_intervals) × (start ≤ end) × (end ≤ max_intervals) }
    ensures { Raised start end price (numbers_in prices.old) (numbers_in prices.new)
        × (length prices.new ≡ max_intervals) }
{
    for here in &mut prices[start..end] {
        *here = (*here).max(price);
    }
}

// Whether an interval from start up to, not including, end has a lower price.
pub fn is_below(prices: &[u8; MAX_INTERVALS], start: usize, end: usize, price: u8) -> bool
    requires { end ≤ max_intervals }
    ensures { IsBelow (numbers_in prices.now) start end price result }
{
    for i in start..end {
        if prices[i] < price {
            return true;
        }
    }
    false
}
