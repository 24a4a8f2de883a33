//! Runs of players' commands in an order.

use crate::outcomes::{order_of, push_run};
use crate::workloads::workload;
use case_lines::Answer;
use std::alloc::Global;

/// `WORLD; ORDER; SCRIPTS`: the replies, and the blocks that are left.
pub(crate) fn answer(alloc: Global, input: &str, answer: &mut Answer) -> Option<()> {
    let (world, rest) = input.split_once("; ")?;
    let (order, scripts) = rest.split_once("; ")?;
    let case = workload(alloc, world, scripts)?;
    let order = order_of(alloc, order)?;
    push_run(alloc, answer, &case, &order)
}
