// The cycles of a plan's steps, added by job and by interval.
ghost use Rattle.std.specs.Prelude.{◌≡◌, ◌+◌, ◌*◌, length, replicate};
ghost use Rattle.model.specs.Limits.{max_intervals, max_jobs};
ghost use Rattle.model.specs.Steps.{step_count};
ghost use Rattle.fitting.specs.Sums.{job_sums, interval_loads, plan_sums, plan_loads};

use model::{MAX_INTERVALS, MAX_JOBS};
use walking::{decode_step, step_count, wrong_length};

// Adds the cycles of a plan's steps to those of their jobs and of their intervals. Nothing is added where the plan has not
// the length that its step count says.
pub(crate) fn add_plan(plan: &[u8], sums: &mut [u64; MAX_JOBS], loads: &mut [u64; MAX_INTERVALS])
    requires { (sums.old ≡ replicate max_jobs 0) × (loads.old ≡ replicate max_intervals 0) }
    ensures { (sums.new ≡ plan_sums plan.now) × (loads.new ≡ plan_loads plan.now) }
{
    if !wrong_length(plan) {
        add_steps(plan, sums, loads);
    }
}

// A step in no interval has no load.
fn add_steps(plan: &[u8], sums: &mut [u64; MAX_JOBS], loads: &mut [u64; MAX_INTERVALS])
    requires plan_len { length plan.now ≡ 4 + 6 * step_count plan.now }
    requires sums_value { (sums.old ≡ replicate max_jobs 0) × (loads.old ≡ replicate max_intervals 0) }
    ensures { (sums.new ≡ job_sums plan.now) × (loads.new ≡ interval_loads plan.now) }
{
    for s in 0..step_count(plan) {
        let step = decode_step(plan, s);
        let job = step.job;
        let interval = step.interval;
        sums[job] += step.cycles;
        if interval < MAX_INTERVALS {
            loads[interval] += step.cycles;
        }
    }
}
