//! The order in which scripts are run.

ghost use Rattle.std.specs.Prelude.{◌≡◌, ℕ, ◌+◌, ◌≤◌, ◌<◌, [], ◌∷◌, ◌++◌, length, min, All, IfOk, OnOk, if◌then◌else◌, nat_lt};
ghost use Rattle.run_terms.specs.Limits.{IsScriptWithin};
ghost use Rattle.run_terms.specs.Order.{IsWholeOrder, lines_of, turns_of};

use edit_terms::Script;
use memory::Memory;
use std::alloc::Global;

/// The most commands of a script.
const MOST_COMMANDS: usize = 10_000;

/// All commands in rounds: in each round the next command of each player that has one left, by rising
/// player number.
pub(crate) fn in_rounds(alloc: Global, scripts: &[Script]) -> Result<Vec<u32>, Memory>
    requires few { length scripts.now ≤ 64 }
    requires within { All IsScriptWithin scripts.now }
    ensures { IfOk result (λ order. IsWholeOrder scripts.now order.items) }
{
    let mut order = Vec::new(alloc);
    for round in 0..MOST_COMMANDS {
        push_round(scripts, round, &mut order)?;
    }
    Ok(order)
}

/// Puts one round behind the others.
fn push_round(scripts: &[Script], round: usize, order: &mut Vec<u32>) -> Result<(), Memory>
    requires { length scripts.now ≤ 64 }
    ensures { OnOk result ((player : ℕ) → turns_of player order.new.items ≡ turns_of player order.old.items + (if nat_lt round (length (lines_of scripts.now player)) then 1 else 0)) }
{
    for player in 0..scripts.len() {
        let is_due = round < scripts[player].lines.as_slice().len();
        push_turn(player as u32, is_due, order)?;
    }
    Ok(())
}

/// Puts a player's turn behind the others, where it is due.
fn push_turn(player: u32, is_due: bool, order: &mut Vec<u32>) -> Result<(), Memory>
    ensures { OnOk result (order.new.items ≡ order.old.items ++ (if is_due then player ∷ [] else [])) }
{
    if !is_due {
        return Ok(());
    }
    order.push(player)?;
    Ok(())
}
