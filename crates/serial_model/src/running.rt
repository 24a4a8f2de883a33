//! The reference execution.

ghost use Rattle.std.specs.Prelude.{IfOk, IfErr};
ghost use Rattle.run_terms.specs.Limits.{IsWithinLimits};
ghost use Rattle.run_terms.specs.Workload.{workload_of};
ghost use Rattle.serial_model.specs.Illegal.{IsErrorOf};
ghost use Rattle.serial_model.specs.Outcomes.{IsRunIn};

use crate::fold::Fold;
use crate::plain_error::PlainError;
use edit_terms::{Case, Outcome};
use std::alloc::Global;

/// Runs the commands of a workload within the limits in one order: each entry is the player whose next
/// command is taken. The outcome has the order, a reply a ticket, and the last world, all as the serial fold
/// of the definitions gives them; of an order that isn't whole it is the fold so far.
///
/// It is slow and plain: each command visits the blocks of its bounding box one by one, and changes are kept
/// block by block.
pub fn plain_run(alloc: Global, case: &Case, order: &[u32]) -> Result<Outcome, PlainError>
    requires { IsWithinLimits (workload_of case.now) }
    ensures run { IfOk result (IsRunIn (workload_of case.now) order.now) }
    ensures fault { IfErr result (IsErrorOf case.now.scripts order.now) }
{
    let mut fold = Fold::start(alloc, case)?;
    for ticket in 0..order.len() {
        let Ok(ticket) = u32::try_from(ticket) else {
            return Err(PlainError::Memory);
        };
        fold.next(alloc, case, order, ticket)?;
    }
    Ok(fold.finish(alloc, order)?)
}
