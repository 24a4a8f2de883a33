//! The players' scripts.

ghost use Rattle.std.specs.Prelude.{◌≡◌, ◌<◌, ◌≤◌, ◌+◌, ◌*◌, ◌++◌, IfOk, OnOk, [], ◌∷◌, length};
ghost use Rattle.std.specs.List.{range_with_len, flat_map};
ghost use Rattle.world_gen.specs.Drill.{group_commands, drill_word, drill_commands, drill_script, lines_from};

use crate::commands::{command_by, corner_by, drill_word};
use edit_terms::{Command, Items, Line, Name, Script};
use memory::Memory;
use std::alloc::Global;

/// The script of a player, 0 to 7.
pub(crate) fn drill_script(alloc: Global, number: u64, player: u32) -> Result<Script, Memory>
    requires { player < 8 }
    ensures { IfOk result (λ script. script ≡ drill_script number player) }
{
    Ok(Script {
        player: name(alloc, player)?,
        lines: Items::from_vec(lines(alloc, number, player)?),
    })
}

/// `p` and the player's digit.
fn name(alloc: Global, player: u32) -> Result<Name, Memory>
    requires { player < 8 }
    ensures { IfOk result (λ name. name ≡ 112 ∷ (48 + player) ∷ []) }
{
    let mut bytes = Vec::with_capacity(alloc, 2)?;
    bytes.push(b'p')?;
    bytes.push(b'0' + player as u8)?;
    Ok(Name::from_vec(bytes))
}

/// The lines of a player's 50 groups.
fn lines(alloc: Global, number: u64, player: u32) -> Result<Vec<Line>, Memory>
    requires { player < 8 }
    ensures { IfOk result (λ lines. lines.items ≡ lines_from 2 (drill_commands number player)) }
{
    let mut lines = Vec::with_capacity(alloc, 150)?;
    for group in 0..50 {
        push_group(alloc, &mut lines, number, player, group)?;
    }
    Ok(lines)
}

/// Appends the three lines of a group.
fn push_group(
    alloc: Global,
    lines: &mut Vec<Line>,
    number: u64,
    player: u32,
    group: u32,
) -> Result<(), Memory>
    requires player { player < 8 }
    requires group { group < 50 }
    requires before { length lines.old.items ≡ 3 * group }
    ensures { OnOk result (lines.new.items ≡ lines.old.items ++ lines_from (3 * group + 2) (group_commands (drill_word number player group) player)) }
{
    let first = Command::Pos1 {
        at: corner_by(number, player, group, 0),
    };
    let second = Command::Pos2 {
        at: corner_by(number, player, group, 3),
    };
    let choice = drill_word(number, player, group, 6);
    let last = command_by(alloc, choice, drill_word(number, player, group, 7))?;
    push_line(lines, 3 * group + 2, first)?;
    push_line(lines, 3 * group + 3, second)?;
    push_line(lines, 3 * group + 4, last)?;
    Ok(())
}

/// Appends a line.
fn push_line(lines: &mut Vec<Line>, number: u32, command: Command) -> Result<(), Memory>
    ensures { OnOk result (lines.new.items ≡ lines.old.items ++ record { number = number; command = command } ∷ []) }
{
    lines.push(Line { number, command })?;
    Ok(())
}
