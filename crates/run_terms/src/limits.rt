//! Whether a workload keeps the limits.

ghost use Rattle.std.specs.Prelude.{◌↔◌, All, IsTrue};
ghost use Rattle.edit_terms.specs.declared.script.Line.{Line};
ghost use Rattle.run_terms.specs.Limits.{is_command_within, IsScriptWithin, IsWithinLimits};
ghost use Rattle.run_terms.specs.Workload.{workload_of};

use crate::command_limits::{is_command_within, is_one_of};
use edit_terms::{Case, Line, Script};

/// Whether a workload keeps the limits, as who plans or runs it has to show: 1 to 64 scripts, and histories
/// of 1 to 1,000 edits. A script has a player's name of 1 to 16 bytes and at most 10,000 commands, whose
/// positions are on the map, whose counts are 1 to 1,000, radii up to 1,000, heights 1 to 4,096 and turns 1 to 3
/// quarters, whose patterns have 1 to 32 entries of weights 1 to 1,000,000, and whose masks have at most 4 noise
/// leaves, each of at most 100 cases of 100.
///
/// A script that was read keeps its limits. Takes time in the commands' number and size, and no memory.
pub fn keeps_limits(case: &Case) -> bool
    ensures { IsTrue result ↔ IsWithinLimits (workload_of case.now) }
{
    if !is_one_of(1, 64, case.scripts.as_slice().len()) {
        return false;
    }
    if !is_one_of(1, 1_000, case.depth as usize) {
        return false;
    }
    are_scripts_within(case.scripts.as_slice())
}

fn are_scripts_within(scripts: &[Script]) -> bool
    ensures { IsTrue result ↔ All IsScriptWithin scripts.now }
{
    scripts.iter().all(|script| is_script_within(script))
}

fn is_script_within(script: &Script) -> bool
    ensures { IsTrue result ↔ IsScriptWithin script.now }
{
    if !is_one_of(1, 16, script.player.as_slice().len()) {
        return false;
    }
    if script.lines.as_slice().len() > 10_000 {
        return false;
    }
    are_lines_within(script.lines.as_slice())
}

fn are_lines_within(lines: &[Line]) -> bool
    ensures { IsTrue result ↔ All (λ (line : Line). IsTrue (is_command_within line.command)) lines.now }
{
    lines.iter().all(|line| is_command_within(&line.command))
}
