// The kernel's interface, for C: byte slices are a pointer and a length, answers are structs by value. No function
// requires anything of its caller. The header is include/ramyearly.h.
#![tactic(auto)]

mod nearest_job;

ghost use Rattle.std.specs.Prelude.{◌≡◌};
ghost use Rattle.model.specs.Checking.{fits, check};
ghost use Rattle.model.specs.Setting.{setting};
ghost use Rattle.model.specs.Windows.{spare};
ghost use Rattle.capi.specs.Results.{fits_result, check_result, setting_result, spare_result, PlanCall, RoundsCall, OrderCall, TouchingCall};

use model::Parameters;
pub use nearest_job::{NearestResult, ramyearly_nearest};
use spare::NoAnswer;

// The first half of the check. Number 0: the plan fits; otherwise the refusal's number and place, and 0.
#[repr(C)]
#[derive(Clone, Copy)]
pub struct FitsResult {
    pub number: u32,
    pub place: u32,
    pub energy: u64,
}

// The check of a plan and its price list. Number 0: accepted; otherwise the refusal's number and place, and 0.
#[repr(C)]
#[derive(Clone, Copy)]
pub struct CheckResult {
    pub number: u32,
    pub place: u32,
    pub energy: u64,
}

// The setting of one interval. Number 0: answered; otherwise the refusal's number and place, and zeros.
#[repr(C)]
#[derive(Clone, Copy)]
pub struct SettingResult {
    pub number: u32,
    pub place: u32,
    pub band: u32,
    pub gap: u32,
    pub extra: u64,
}

// The spare of a window. Number 0: answered; otherwise the refusal's number and place, and 0.
#[repr(C)]
#[derive(Clone, Copy)]
pub struct SpareResult {
    pub number: u32,
    pub place: u32,
    pub spare: i64,
}

// Planning. Number 0: a plan was written, with its intervals, steps and energy figure; 11: the earliest overfull window
// and its spare; otherwise the refusal's number and place. Fields that a case does not fill are 0.
#[repr(C)]
#[derive(Clone, Copy)]
pub struct PlanResult {
    pub number: u32,
    pub place: u32,
    pub intervals: u32,
    pub steps: u32,
    pub energy: u64,
    pub start: u32,
    pub end: u32,
    pub spare: i64,
}

// Laying out a round. Number 0: a job table was written, with its length in bytes and the multiple after which the round
// repeats; otherwise the refusal's number and place, and zeros.
#[repr(C)]
#[derive(Clone, Copy)]
pub struct RoundsResult {
    pub number: u32,
    pub place: u32,
    pub length: u32,
    pub multiple: u32,
}

// Ordering. Number 0: the ordered plan was written, with its length in bytes; otherwise the refusal's number and place, and 0.
#[repr(C)]
#[derive(Clone, Copy)]
pub struct OrderResult {
    pub number: u32,
    pub place: u32,
    pub length: u32,
}

// What touches a span. Number 0: the lists were written, with their lengths and the nearest deadline, 0 where there is none;
// otherwise the refusal's number and place, and zeros.
#[repr(C)]
#[derive(Clone, Copy)]
pub struct TouchingResult {
    pub number: u32,
    pub place: u32,
    pub open_jobs: u32,
    pub inside_jobs: u32,
    pub steps: u32,
    pub deadline: u32,
}

#[unsafe(no_mangle)]
pub extern "C" fn ramyearly_fits(
    levels: &[u8],
    jobs: &[u8],
    marks: &[u8],
    highest: u32,
    free_ticks: u32,
    margin: u32,
    plan: &[u8],
) -> FitsResult
    ensures { result ≡ fits_result (fits levels.now jobs.now marks.now (record { highest = highest; free = free_ticks; margin = margin }) plan.now) }
{
    let parameters = Parameters {
        highest,
        free: free_ticks,
        margin,
    };
    match audit::fits(levels, jobs, marks, parameters, plan) {
        Ok(energy) => FitsResult {
            number: 0,
            place: 0,
            energy,
        },
        Err(own) => FitsResult {
            number: own.fault.number(),
            place: own.place,
            energy: 0,
        },
    }
}

#[unsafe(no_mangle)]
pub extern "C" fn ramyearly_check(
    levels: &[u8],
    jobs: &[u8],
    marks: &[u8],
    highest: u32,
    free_ticks: u32,
    margin: u32,
    plan: &[u8],
    prices: &[u8],
) -> CheckResult
    ensures { result ≡ check_result (check levels.now jobs.now marks.now (record { highest = highest; free = free_ticks; margin = margin }) plan.now prices.now) }
{
    let parameters = Parameters {
        highest,
        free: free_ticks,
        margin,
    };
    match audit::check(levels, jobs, marks, parameters, plan, prices) {
        Ok(energy) => CheckResult {
            number: 0,
            place: 0,
            energy,
        },
        Err(own) => CheckResult {
            number: own.fault.number(),
            place: own.place,
            energy: 0,
        },
    }
}

#[unsafe(no_mangle)]
pub extern "C" fn ramyearly_setting(
    levels: &[u8],
    highest: u32,
    length: u32,
    load: u64,
) -> SettingResult
    ensures { result ≡ setting_result (setting levels.now highest length load) }
{
    match settings::setting(levels, highest, length, load) {
        Ok(setting) => SettingResult {
            number: 0,
            place: 0,
            band: setting.band,
            gap: setting.gap as u32,
            extra: setting.extra,
        },
        Err(own) => SettingResult {
            number: own.fault.number(),
            place: own.place,
            band: 0,
            gap: 0,
            extra: 0,
        },
    }
}

#[unsafe(no_mangle)]
pub extern "C" fn ramyearly_spare(
    levels: &[u8],
    jobs: &[u8],
    highest: u32,
    free_ticks: u32,
    margin: u32,
    start: u32,
    end: u32,
) -> SpareResult
    ensures { result ≡ spare_result (spare levels.now jobs.now (record { highest = highest; free = free_ticks; margin = margin }) start end) }
{
    let parameters = Parameters {
        highest,
        free: free_ticks,
        margin,
    };
    match spare::spare(levels, jobs, parameters, start, end) {
        Ok(spare) => SpareResult {
            number: 0,
            place: 0,
            spare,
        },
        Err(own) => SpareResult {
            number: own.fault.number(),
            place: own.place,
            spare: 0,
        },
    }
}

#[unsafe(no_mangle)]
pub extern "C" fn ramyearly_plan(
    levels: &[u8],
    jobs: &[u8],
    marks: &[u8],
    highest: u32,
    free_ticks: u32,
    margin: u32,
    plan: &mut [u8],
    prices: &mut [u8],
    shares: &mut [u32],
) -> PlanResult
    ensures { PlanCall levels.now jobs.now marks.now (record { highest = highest; free = free_ticks; margin = margin })
        (record { plan = plan.entry.now; prices = prices.old; shares = shares.old })
        (record { plan = plan.exit.now; prices = prices.new; shares = shares.new }) result }
{
    let parameters = Parameters {
        highest,
        free: free_ticks,
        margin,
    };
    match planning::plan(levels, jobs, marks, parameters, plan, prices, shares) {
        Ok(written) => PlanResult {
            number: 0,
            place: 0,
            intervals: written.intervals,
            steps: written.steps,
            energy: written.energy,
            start: 0,
            end: 0,
            spare: 0,
        },
        Err(NoAnswer::Overfull { start, end, spare }) => PlanResult {
            number: 11,
            place: 0,
            intervals: 0,
            steps: 0,
            energy: 0,
            start,
            end,
            spare,
        },
        Err(NoAnswer::Refused(own)) => PlanResult {
            number: own.fault.number(),
            place: own.place,
            intervals: 0,
            steps: 0,
            energy: 0,
            start: 0,
            end: 0,
            spare: 0,
        },
    }
}

#[unsafe(no_mangle)]
pub extern "C" fn ramyearly_rounds(tasks: &[u8], jobs: &mut [u8]) -> RoundsResult
    ensures { RoundsCall tasks.now jobs.old jobs.new result }
{
    match rounds::rounds(tasks, jobs) {
        Ok(laid_out) => RoundsResult {
            number: 0,
            place: 0,
            length: laid_out.length,
            multiple: laid_out.multiple,
        },
        Err(own) => RoundsResult {
            number: own.fault.number(),
            place: own.place,
            length: 0,
            multiple: 0,
        },
    }
}

#[unsafe(no_mangle)]
pub extern "C" fn ramyearly_order(
    levels: &[u8],
    jobs: &[u8],
    marks: &[u8],
    highest: u32,
    free_ticks: u32,
    margin: u32,
    plan: &[u8],
    prices: &[u8],
    ordered: &mut [u8],
) -> OrderResult
    ensures { OrderCall levels.now jobs.now marks.now (record { highest = highest; free = free_ticks; margin = margin }) plan.now prices.now ordered.old ordered.new result }
{
    let parameters = Parameters {
        highest,
        free: free_ticks,
        margin,
    };
    match ordering::order(levels, jobs, marks, parameters, plan, prices, ordered) {
        Ok(length) => OrderResult {
            number: 0,
            place: 0,
            length,
        },
        Err(own) => OrderResult {
            number: own.fault.number(),
            place: own.place,
            length: 0,
        },
    }
}

#[unsafe(no_mangle)]
pub extern "C" fn ramyearly_touching(
    jobs: &[u8],
    marks: &[u8],
    free_ticks: u32,
    margin: u32,
    plan: &[u8],
    start: u32,
    end: u32,
    open_jobs: &mut [u32],
    inside_jobs: &mut [u32],
    steps: &mut [u32],
) -> TouchingResult
    ensures { TouchingCall jobs.now marks.now free_ticks margin plan.now start end
        (record { open_jobs = open_jobs.old; inside_jobs = inside_jobs.old; steps = steps.old })
        (record { open_jobs = open_jobs.new; inside_jobs = inside_jobs.new; steps = steps.new }) result }
{
    let answer = touching::touching(
        jobs,
        marks,
        free_ticks,
        margin,
        plan,
        start,
        end,
        open_jobs,
        inside_jobs,
        steps,
    );
    match answer {
        Ok(listed) => TouchingResult {
            number: 0,
            place: 0,
            open_jobs: listed.open_jobs,
            inside_jobs: listed.inside_jobs,
            steps: listed.steps,
            deadline: listed.deadline.unwrap_or(0),
        },
        Err(own) => TouchingResult {
            number: own.fault.number(),
            place: own.place,
            open_jobs: 0,
            inside_jobs: 0,
            steps: 0,
            deadline: 0,
        },
    }
}
