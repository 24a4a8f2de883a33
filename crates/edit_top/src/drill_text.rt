//! The text that tells what a drill left.

ghost use Rattle.std.specs.Prelude.{◌≡◌, ◌≤◌, ◌<◌, ◌^◌, ◌++◌, ℕ, length, map, get_or, flat_map, codes, decimal, All, IfOk, OnOk};
ghost use Rattle.std.specs.List.{range_with_len};
ghost use Rattle.run_terms.specs.Order.{turns_of};
ghost use Rattle.run_terms.specs.Reply.{IsOutcome};
ghost use Rattle.run_terms.specs.Workload.{workload_of};
ghost use Rattle.state_counts.specs.Counts.{listed};
ghost use Rattle.world_gen.specs.Drill.{drill_workload};
ghost use Rattle.edit_top.specs.RunText.{name_of};
ghost use Rattle.edit_top.specs.DrillText.{IsDrillText, changed_in, changed_in_turns, drill_text, player_text, state_text};

use edit_terms::{Case, Outcome, Reply, Script};
use itoa::Buffer;
use memory::Memory;
use state_counts::count_states;
use std::alloc::Global;
use std::collections::BTreeMap;

/// The text of the drill of a number from an outcome of its case.
pub(crate) fn drill_text(
    alloc: Global,
    number: u64,
    case: &Case,
    outcome: &Outcome,
) -> Result<Vec<u8>, Memory>
    requires case { workload_of case.now ≡ drill_workload number }
    requires few { (player : ℕ) → turns_of player outcome.now.order ≤ 10000 }
    requires outcome { IsOutcome (workload_of case.now) outcome.now }
    ensures { IfOk result (λ text. IsDrillText number text.items) }
{
    let scripts = case.scripts.as_slice();
    let order = outcome.order.as_slice();
    let changed = changed_by_players(alloc, scripts.len(), order, outcome.replies.as_slice())?;
    let counts = count_states(alloc, &outcome.world)?;
    let text = whole_text(alloc, number, scripts, &changed, &counts, order.len())?;
    Ok(text)
}

/// The text of a drill, from what each player changed and the counts of the states.
fn whole_text(
    alloc: Global,
    number: u64,
    scripts: &[Script],
    changed: &[u64],
    counts: &BTreeMap<Vec<u8>, u64>,
    commands: usize,
) -> Result<Vec<u8>, Memory>
    requires { length changed.now ≡ length scripts.now }
    ensures { IfOk result (λ text. text.items ≡ drill_text number (map (λ player. (name_of scripts.now player, get_or changed.now player 0)) (range_with_len 0 (length scripts.now))) (listed counts.now) commands) }
{
    let mut text = Vec::from_slice(alloc, b"drill ")?;
    text.extend_from_slice(Buffer::new().format(number).as_bytes())?;
    text.extend_from_slice(b"\n")?;
    push_players(&mut text, scripts, changed)?;
    push_states(&mut text, counts)?;
    text.extend_from_slice(b"done ")?;
    text.extend_from_slice(Buffer::new().format(commands).as_bytes())?;
    text.extend_from_slice(b"\n")?;
    Ok(text)
}

/// How many positions the commands of each player changed, as the replies to an order tell.
fn changed_by_players(
    alloc: Global,
    players: usize,
    order: &[u32],
    replies: &[Reply],
) -> Result<Vec<u64>, Memory>
    requires players { All (λ p. p < players) order.now }
    requires replied { length replies.now ≡ length order.now }
    requires few { (player : ℕ) → turns_of player order.now ≤ 10000 }
    ensures count { IfOk result (λ changed. length changed.items ≡ players) }
    ensures changed { IfOk result (λ changed. (player : ℕ) → player < players →
        get_or changed.items player 0 ≡ changed_in_turns order.now replies.now player (turns_of player order.now)) }
{
    let mut changed = vec![in alloc; 0u64; players]?;
    for (ticket, player) in order.iter().enumerate() {
        let before = changed[*player as usize];
        changed[*player as usize] = before + changed_in(&replies[ticket]);
    }
    Ok(changed)
}

/// How many positions a reply tells as changed.
fn changed_in(reply: &Reply) -> u64
    ensures count { result ≡ changed_in reply.now }
    ensures few { result < 2 ^ 32 }
{
    match reply {
        Reply::Changed(count) => *count as u64,
        Reply::Accepted | Reply::Refused(_) => 0,
    }
}

/// Appends a line for each player.
fn push_players(text: &mut Vec<u8>, scripts: &[Script], changed: &[u64]) -> Result<(), Memory>
    requires { length changed.now ≡ length scripts.now }
    ensures { OnOk result (text.new.items ≡ text.old.items ++ flat_map player_text (map (λ player. (name_of scripts.now player, get_or changed.now player 0)) (range_with_len 0 (length scripts.now)))) }
{
    for (player, script) in scripts.iter().enumerate() {
        push_line(
            text,
            script.player.as_slice(),
            b" changed ",
            changed[player],
        )?;
    }
    Ok(())
}

/// Appends a line for each state.
fn push_states(text: &mut Vec<u8>, counts: &BTreeMap<Vec<u8>, u64>) -> Result<(), Memory>
    ensures { OnOk result (text.new.items ≡ text.old.items ++ flat_map state_text (listed counts.now)) }
{
    for (state, blocks) in counts {
        push_line(text, state, b" ", *blocks)?;
    }
    Ok(())
}

/// Appends a line of a name and a number.
fn push_line(text: &mut Vec<u8>, name: &[u8], between: &[u8], count: u64) -> Result<(), Memory>
    ensures { OnOk result (text.new.items ≡ text.old.items ++ (name.now ++ between.now ++ decimal count ++ codes "\n")) }
{
    text.extend_from_slice(name)?;
    text.extend_from_slice(between)?;
    text.extend_from_slice(Buffer::new().format(count).as_bytes())?;
    text.extend_from_slice(b"\n")?;
    Ok(())
}
