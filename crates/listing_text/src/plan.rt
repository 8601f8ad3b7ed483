// The text of a plan.
ghost use Rattle.std.specs.Prelude.{◌≡◌, ◌+◌, ◌*◌, ◌≤◌, length, take};
ghost use Rattle.model.specs.Limits.{max_jobs};
ghost use Rattle.model.specs.Outcome.{answer};
ghost use Rattle.model.specs.Entries.{encode_each};
ghost use Rattle.model.specs.Sum.{sum};
ghost use Rattle.model.specs.Sites.{Site, read_site};
ghost use Rattle.model.specs.Plans.{shares_in};
ghost use Rattle.model.specs.PriceBytes.{prices_of};
ghost use Rattle.levels.specs.PointTables.{points_of};
ghost use Rattle.writing.specs.StepList.{steps_in};
ghost use Rattle.listing_lines.specs.PlanText.{step_line, span_lines, step_lines, plan_text, text_of_plan};
ghost use Rattle.listing_lines.specs.Appending.{text_room, span_room, step_room, Appended};
ghost use Rattle.listing_text.specs.ShownPlans.{bounds_in, prices_in, ShownPlan, ListedPlan};

use levels::PointTable;
use listing_lines::{put_energy, put_sizes, put_span, put_step};
use model::{MAX_BOUNDS, MAX_JOBS, Parameters};
use site::read_site;

// Puts the text of a plan for the site that the tables are read as with these parameters.
pub(crate) fn put_plan(
    levels: &[u8],
    jobs: &[u8],
    marks: &[u8],
    parameters: Parameters,
    intervals: usize,
    steps: u32,
    energy: u64,
    prices: &[u8],
    shares: &[u32],
    text: &mut [u8],
) -> usize
    requires { ListedPlan levels.now jobs.now marks.now parameters intervals steps energy prices.now shares.now }
    ensures { (s : Site) → read_site levels.now jobs.now marks.now parameters ≡ answer s → Appended text.old 0
        (text_of_plan s (prices_of (take (2 + 5 * intervals) prices.now)) (shares_in (length s.jobs) shares.now) steps energy) text_room text.new result }
{
    let mut releases = [0u64; MAX_JOBS];
    let mut deadlines = [0u64; MAX_JOBS];
    let mut cycles = [0u64; MAX_JOBS];
    let mut times = [0u64; MAX_BOUNDS];
    let site = read_site(
        levels,
        jobs,
        marks,
        parameters,
        &mut releases,
        &mut deadlines,
        &mut cycles,
        &mut times,
    )
    .unwrap();
    put_lines(
        site.working,
        &times,
        site.jobs,
        intervals,
        steps,
        energy,
        prices,
        shares,
        text,
    )
}

// The lines of a plan, one after another. Interval i goes from time i to time i + 1.
fn put_lines(
    working: PointTable,
    times: &[u64; MAX_BOUNDS],
    jobs: usize,
    intervals: usize,
    steps: u32,
    energy: u64,
    prices: &[u8],
    shares: &[u32],
    text: &mut [u8],
) -> usize
    requires { ShownPlan working jobs intervals times.now prices.now shares.now }
    ensures { Appended text.old 0
        (plan_text (points_of working) jobs intervals (bounds_in times.now)
        (prices_in intervals prices.now) (shares_in jobs shares.now) steps energy) text_room text.new result }
{
    let first = put_sizes(text, 0, jobs, intervals, steps);
    let second = put_spans(working, times, jobs, intervals, prices, shares, text, first);
    let last = put_steps(shares, jobs, intervals, text, second);
    put_energy(text, last, energy)
}

// A line for each interval.
fn put_spans(
    working: PointTable,
    times: &[u64; MAX_BOUNDS],
    jobs: usize,
    intervals: usize,
    prices: &[u8],
    shares: &[u32],
    text: &mut [u8],
    place: usize,
) -> usize
    requires shown_plan { ShownPlan working jobs intervals times.now prices.now shares.now }
    requires intervals_bound { place + span_room * intervals ≤ text_room }
    ensures { Appended text.old place
        (span_lines (points_of working) jobs intervals (bounds_in times.now)
        (prices_in intervals prices.now) (shares_in jobs shares.now)) (span_room * intervals) text.new result }
{
    let mut next = place;
    for i in 0..intervals {
        let load = load_of(shares, jobs, i);
        let price = prices[2 + 4 * intervals + i];
        next = put_span(working, times[i], times[i + 1], load, price, text, next);
    }
    next
}

// The load of an interval: the sum of its jobs' cycles there.
fn load_of(shares: &[u32], jobs: usize, interval: usize) -> u64
    requires { (jobs ≤ max_jobs) × (interval * jobs + jobs ≤ length shares.now) }
    ensures { result ≡ sum jobs (shares_in jobs shares.now interval) }
{
    let mut load = 0u64;
    for j in 0..jobs {
        load += shares[interval * jobs + j] as u64;
    }
    load
}

// The steps of all intervals.
fn put_steps(shares: &[u32], jobs: usize, intervals: usize, text: &mut [u8], place: usize) -> usize
    requires { (intervals * jobs ≤ length shares.now) × (place + step_room * jobs * intervals ≤ text_room) }
    ensures { Appended text.old place (step_lines jobs intervals (shares_in jobs shares.now)) (step_room * jobs * intervals) text.new result }
{
    let mut next = place;
    for i in 0..intervals {
        next = put_interval(shares, jobs, i, text, next);
    }
    next
}

// The steps of one interval, by job number.
fn put_interval(
    shares: &[u32],
    jobs: usize,
    interval: usize,
    text: &mut [u8],
    place: usize,
) -> usize
    requires { (interval * jobs + jobs ≤ length shares.now) × (place + step_room * jobs ≤ text_room) }
    ensures { Appended text.old place (encode_each step_line (steps_in jobs (shares_in jobs shares.now) interval)) (step_room * jobs) text.new result }
{
    let mut next = place;
    for j in 0..jobs {
        next = put_step(interval, j, shares[interval * jobs + j], text, next);
    }
    next
}
