//! Blocks that runs leave.

ghost use Rattle.run_terms.specs.Limits.{IsWithinLimits};
ghost use Rattle.run_terms.specs.Workload.{workload_of};

use crate::blocks::{is_same_block, push_block};
use crate::outcomes::{order_of, outcome_of};
use crate::positions::{position_of, push_position};
use crate::replies::push_replies;
use crate::workloads::workload;
use case_lines::Answer;
use edit_terms::{Case, Grid, Outcome, Pos};
use std::alloc::Global;

/// `WORLD; ORDER; SCRIPTS; POSITIONS`: the replies, and the blocks at these positions.
pub(crate) fn answer_found(alloc: Global, input: &str, answer: &mut Answer) -> Option<()> {
    let (world, rest) = input.split_once("; ")?;
    let (order, rest) = rest.split_once("; ")?;
    let (scripts, positions) = rest.split_once("; ")?;
    let case = workload(alloc, world, scripts)?;
    let outcome = run_in(alloc, &case, order)?;
    push_replies(answer, outcome.replies.as_slice());
    answer.text(";");
    push_all(alloc, answer, &outcome.world, positions)
}

/// What a run in the order of a text leaves.
fn run_in(alloc: Global, case: &Case, order: &str) -> Option<Outcome>
    requires { IsWithinLimits (workload_of case.now) }
{
    let order = order_of(alloc, order)?;
    outcome_of(alloc, case, &order)
}

/// Appends the blocks at these positions.
fn push_all(alloc: Global, answer: &mut Answer, world: &Grid, positions: &str) -> Option<()> {
    for text in positions.split(' ') {
        answer.text(" ");
        push_block(alloc, answer, world, position_of(text)?);
    }
    Some(())
}

/// `WORLD; ORDER; ORDER; SCRIPTS`: whether both orders leave the same blocks.
pub(crate) fn answer_same(alloc: Global, input: &str, answer: &mut Answer) -> Option<()> {
    let (world, rest) = input.split_once("; ")?;
    let (one, rest) = rest.split_once("; ")?;
    let (other, scripts) = rest.split_once("; ")?;
    let case = workload(alloc, world, scripts)?;
    let one = run_in(alloc, &case, one)?;
    let other = run_in(alloc, &case, other)?;
    push_difference(answer, &one.world, &other.world);
    Some(())
}

/// Appends the first position at which two worlds differ, or that they are the same.
fn push_difference(answer: &mut Answer, one: &Grid, other: &Grid) {
    match difference(one, other) {
        None => answer.fail(),
        Some(None) => answer.text("same"),
        Some(Some(p)) => {
            answer.text("other at ");
            push_position(answer, &p)
        }
    }
}

/// The first position at which two worlds differ.
fn difference(one: &Grid, other: &Grid) -> Option<Option<Pos>> {
    for index in 0..one.area().volume() {
        let p = one.area().position(index)?;
        if !is_same_block(one, other, p)? {
            return Some(Some(p));
        }
    }
    Some(None)
}
