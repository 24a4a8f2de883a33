//! What runs leave.

ghost use Rattle.run_terms.specs.Limits.{IsWithinLimits};
ghost use Rattle.run_terms.specs.Workload.{workload_of};

use crate::blocks::push_blocks;
use crate::replies::push_replies;
use case_lines::Answer;
use edit_terms::{Case, Outcome};
use serial_model::{PlainError, plain_run};
use std::alloc::Global;

/// The order of a text of player numbers.
pub(crate) fn order_of(alloc: Global, text: &str) -> Option<Vec<u32>> {
    let mut order = Vec::new(alloc);
    for player in text.split(' ') {
        order.push(player.parse().ok()?).ok()?;
    }
    Some(order)
}

/// Appends what a run in an order leaves, or where the order is illegal.
pub(crate) fn push_run(alloc: Global, answer: &mut Answer, case: &Case, order: &[u32]) -> Option<()>
    requires { IsWithinLimits (workload_of case.now) }
{
    match plain_run(alloc, case, order) {
        Ok(outcome) => push_outcome(alloc, answer, &outcome),
        Err(PlainError::Illegal { at }) => {
            answer.text("illegal at ");
            answer.number(at);
            Some(())
        }
        Err(PlainError::Memory) => {
            answer.fail();
            Some(())
        }
    }
}

/// Appends the replies and the blocks that are left.
fn push_outcome(alloc: Global, answer: &mut Answer, outcome: &Outcome) -> Option<()> {
    push_replies(answer, outcome.replies.as_slice());
    answer.text("; ");
    push_blocks(alloc, answer, &outcome.world)
}

/// What a run in a legal order leaves, which tells that order.
pub(crate) fn outcome_of(alloc: Global, case: &Case, order: &[u32]) -> Option<Outcome>
    requires { IsWithinLimits (workload_of case.now) }
{
    match plain_run(alloc, case, order) {
        Ok(outcome) => with_order(outcome, order),
        Err(_) => None,
    }
}

/// The outcome, where it is one of this order.
fn with_order(outcome: Outcome, order: &[u32]) -> Option<Outcome> {
    if outcome.order.as_slice() == order {
        return Some(outcome);
    }
    None
}
