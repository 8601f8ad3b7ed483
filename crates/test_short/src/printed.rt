// Printing what planning answers and writes.
use planning::WrittenPlan;
use spare::NoAnswer;
use test_support::buffers::{kept, numbers_kept};
use test_support::show;
use walking::{Step, step_at};

// What is written of the shares is no matter here.
pub(crate) fn plan(plan: &[u8], prices: &[u8], made: WrittenPlan) {
    let intervals = made.intervals as usize;
    let steps = made.steps as usize;
    show::words(b" plan");
    show::number(intervals as u64);
    show::number(steps as u64);
    show::number(made.energy);
    let plan_end = 4 + 6 * steps;
    let prices_end = 2 + 5 * intervals;
    let plan_length = io::count(plan_end as isize, plan);
    let price_length = io::count(prices_end as isize, prices);
    all_steps(&plan[..plan_length], steps);
    test_support::written::prices(&prices[..price_length], 2 + 4 * intervals);
    show::rest(kept(plan, plan_length) & kept(prices, price_length));
}

// Why there is no plan.
pub(crate) fn no_answer(why: NoAnswer) {
    match why {
        NoAnswer::Overfull { start, end, spare } => {
            show::words(b" overfull");
            show::number(start as u64);
            show::number(end as u64);
            show::signed(spare);
        }
        NoAnswer::Refused(own) => show::refused(own),
    }
}

// Where no plan comes out nothing is written.
pub(crate) fn nothing(plan: &[u8], prices: &[u8], shares: &[u32]) {
    let plan_kept = kept(plan, 0);
    show::rest(plan_kept & kept(prices, 0) & numbers_kept(shares, 0));
}

fn all_steps(plan: &[u8], count: usize) {
    for position in 0..count {
        if let Ok(Some(step)) = step_at(plan, position) {
            one_step(step);
        }
    }
}

fn one_step(step: Step) {
    show::words(b" step");
    show::number(step.interval as u64);
    show::number(step.job as u64);
    show::number(step.cycles);
}
