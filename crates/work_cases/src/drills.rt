//! The workload of the drill.

use crate::censuses::push_census;
use crate::commands::push_command;
use crate::numbers::number_before;
use case_lines::Answer;
use edit_terms::{Case, Line, Script};
use std::alloc::Global;
use world_gen::drill_case;

/// `N`: the seed, the depth, the size of the world, each player's name, count of commands and first and last line,
/// and the states of the world.
pub(crate) fn answer_workload(alloc: Global, input: &str, answer: &mut Answer) -> Option<()> {
    let case = drill_case(alloc, input.parse().ok()?).ok()?;
    push_head(answer, &case);
    for script in case.scripts.as_slice() {
        push_script(answer, script);
    }
    answer.text("; ");
    push_census(alloc, answer, &case.opening);
    Some(())
}

fn push_head(answer: &mut Answer, case: &Case) {
    let area = case.opening.area();
    answer.text("seed ");
    answer.number(case.seed);
    answer.text(", depth ");
    answer.number(case.depth);
    answer.text(", ");
    push_sizes(answer, area.width(), area.height(), area.length())
}

fn push_sizes(answer: &mut Answer, width: u32, height: u32, length: u32) {
    answer.number(width);
    answer.text("x");
    answer.number(height);
    answer.text("x");
    answer.number(length)
}

/// Appends a script's player, its count of commands, and the lines of the first and the last.
fn push_script(answer: &mut Answer, script: &Script) {
    let lines = script.lines.as_slice();
    answer.text("; ");
    answer.bytes(script.player.as_slice());
    answer.text(" ");
    answer.number(lines.len());
    answer.text(" from ");
    push_line_number(answer, lines.first());
    answer.text(" to ");
    push_line_number(answer, lines.last())
}

/// `N PLAYER GROUP`: the three commands of a player's group.
pub(crate) fn answer_group(alloc: Global, input: &str, answer: &mut Answer) -> Option<()> {
    let (number, rest) = number_before(input)?;
    let (player, group) = number_before(rest)?;
    let first = group.parse::<usize>().ok()?.saturating_mul(3);
    let case = drill_case(alloc, number).ok()?;
    let script = case.scripts.as_slice().get(usize::try_from(player).ok()?)?;
    push_lines(alloc, answer, script.lines.as_slice(), first);
    Some(())
}

fn push_line_number(answer: &mut Answer, line: Option<&Line>) {
    match line {
        Some(line) => answer.number(line.number),
        None => answer.fail(),
    }
}

fn push_lines(alloc: Global, answer: &mut Answer, lines: &[Line], first: usize) {
    let Some(group) = lines.get(first..first.saturating_add(3)) else {
        answer.fail();
        return;
    };
    let mut bar = "";
    for line in group {
        answer.text(bar);
        push_command(alloc, answer, &line.command);
        bar = " | ";
    }
}
