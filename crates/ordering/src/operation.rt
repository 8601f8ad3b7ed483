// The operation: from the tables of a site, a plan and its price list to the ordered plan in the lent buffer.
ghost use Rattle.std.specs.Prelude.{length};
ghost use Rattle.ordering.specs.OrderAnswers.{OrderContract};

use crate::ordered::write_ordered;
use audit::check_cells;
use job_sets::SET_WORDS;
use model::{Fault, Parameters, Refusal};

// Checks a plan and its price list, writes the plan with its steps in cell order, and answers its length in bytes. Any bytes and any
// buffer, of any length, are answered.
pub fn order(
    levels: &[u8],
    jobs: &[u8],
    marks: &[u8],
    parameters: Parameters,
    plan: &[u8],
    prices: &[u8],
    ordered: &mut [u8],
) -> Result<u32, Refusal>
    ensures { OrderContract levels.now jobs.now marks.now parameters plan.now prices.now ordered.old ordered.new result }
{
    let mut cells = [0u64; SET_WORDS];
    check_cells(levels, jobs, marks, parameters, plan, prices, &mut cells)?;
    let length = plan.len();
    if ordered.len() < length {
        return Err(Fault::PlanRoom.at(length as u32));
    }
    write_ordered(plan, &cells, ordered);
    Ok(length as u32)
}
