// The steps of a plan held against the prices of the intervals that their jobs are open in: refusal 24. For each price there
// is the set of the jobs that are open in an interval of a smaller price.
ghost use Rattle.std.specs.Prelude.{◌≡◌, ℕ, ◌+◌, ◌-◌, ◌*◌, ◌<◌, ◌≤◌, length, get_or};
ghost use Rattle.model.specs.Limits.{max_bounds, max_points};
ghost use Rattle.model.specs.Outcome.{by_entry};
ghost use Rattle.model.specs.Steps.{step_count, step_at};
ghost use Rattle.fitting.specs.Verdicts.{verdict_of, passed};
ghost use Rattle.pricing.specs.SecondHalf.{priced_sets, cheaper_sets, cheaper_fault_in};

use intervals::interval_count;
use job_sets::{JobSet, SET_WORDS, set_at};
use model::{Fault, MAX_INTERVALS, MAX_POINTS, Refusal};
use walking::{decode_step, step_count};

// Goes through the steps one after another.
pub(crate) fn check_cheapest(
    sets: &[u64; SET_WORDS],
    bounds: usize,
    plan: &[u8],
    numbers: &[u64; MAX_INTERVALS],
) -> Result<(), Refusal>
    requires bounds_le_max_bounds { (bounds ≤ max_bounds) × (length plan.now ≡ 4 + 6 * step_count plan.now) }
    requires by_index { (i : ℕ) → i < bounds - 1 → get_or numbers.now i 0 < max_points }
    requires by_index_2 { (s : ℕ) → s < step_count plan.now → (step_at plan.now s).interval < bounds - 1 }
    ensures { result ≡ verdict_of (by_entry (step_count plan.now) (cheaper_fault_in sets.now bounds numbers.now plan.now) passed) }
{
    let priced = priced_sets(sets, bounds, numbers);
    let cheaper = cheaper_sets(priced);
    for s in 0..step_count(plan) {
        let step = decode_step(plan, s);
        let interval = step.interval;
        let price = numbers[interval] as usize;
        if cheaper[price].has(step.job) {
            return Err(Fault::CheaperInterval.at(s as u32));
        }
    }
    Ok(())
}

// For each price the jobs that are open in an interval of that price.
fn priced_sets(
    sets: &[u64; SET_WORDS],
    bounds: usize,
    numbers: &[u64; MAX_INTERVALS],
) -> [JobSet; MAX_POINTS]
    requires { (bounds ≤ max_bounds) × ((i : ℕ) → i < bounds - 1 → get_or numbers.now i 0 < max_points) }
    ensures { result ≡ priced_sets (bounds - 1) sets.now numbers.now }
{
    let nobody = JobSet::none();
    let mut priced = [nobody; MAX_POINTS];
    for i in 0..interval_count(bounds) {
        let price = numbers[i] as usize;
        priced[price] = priced[price].either(set_at(sets, i));
    }
    priced
}

// For each price the jobs that the sets of the smaller prices have.
fn cheaper_sets(priced: [JobSet; MAX_POINTS]) -> [JobSet; MAX_POINTS]
    ensures { result ≡ cheaper_sets priced }
{
    let mut union = JobSet::none();
    let mut cheaper = [union; MAX_POINTS];
    for price in 0..MAX_POINTS {
        cheaper[price] = union;
        union = union.either(priced[price]);
    }
    cheaper
}
