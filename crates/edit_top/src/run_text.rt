//! The printed text of a run.

ghost use Rattle.std.specs.Prelude.{◌≡◌, ◌+◌, ◌<◌, ◌^◌, ◌++◌, length, get_or, slice_get, OnOk, IfOk};
ghost use Rattle.std.specs.List.{flat_map, range_with_len};
ghost use Rattle.edit_terms.specs.declared.outcome.Reply.TheVariants.{Accepted};
ghost use Rattle.run_terms.specs.Order.{IsLegalOrder, lines_of, player_of, command_number};
ghost use Rattle.edit_top.specs.RunText.{refusal_text, reply_text, ticket_text, name_of, line_number, text_of_ticket, text_of_order};

use edit_terms::{Line, Refusal, Reply, Script};
use itoa::Buffer;
use memory::Memory;
use std::alloc::Global;

/// The text of an order of the scripts' commands and their replies.
pub(crate) fn run_text(
    alloc: Global,
    scripts: &[Script],
    order: &[u32],
    replies: &[Reply],
) -> Result<Vec<u8>, Memory>
    requires legal { IsLegalOrder scripts.now order.now }
    requires replied { length replies.now ≡ length order.now }
    ensures { IfOk result (λ text. text.items ≡ text_of_order scripts.now order.now replies.now) }
{
    let mut text = tickets_text(alloc, scripts, order, replies)?;
    text.extend_from_slice(b"done ")?;
    text.extend_from_slice(Buffer::new().format(order.len()).as_bytes())?;
    text.extend_from_slice(b"\n")?;
    Ok(text)
}

/// The lines of the tickets.
fn tickets_text(
    alloc: Global,
    scripts: &[Script],
    order: &[u32],
    replies: &[Reply],
) -> Result<Vec<u8>, Memory>
    requires legal { IsLegalOrder scripts.now order.now }
    requires replied { length replies.now ≡ length order.now }
    ensures { IfOk result (λ text. text.items ≡ flat_map (text_of_ticket scripts.now order.now replies.now) (range_with_len 0 (length order.now))) }
{
    let mut text = Vec::new(alloc);
    let mut taken = vec![in alloc; 0usize; scripts.len()]?;
    for (ticket, player) in order.iter().enumerate() {
        let script = &scripts[*player as usize];
        let command = taken[*player as usize];
        let line = line_of(script, command);
        push_ticket(
            &mut text,
            ticket,
            script.player.as_slice(),
            line.number,
            &replies[ticket],
        )?;
        taken[*player as usize] = command + 1;
    }
    Ok(text)
}

/// The line of a command.
fn line_of(script: &Script, command: usize) -> &Line
    requires { command < length script.now.lines }
    ensures line { slice_get script.now.lines command ≡ Some result.now }
    ensures few { command + 1 < 2 ^ 64 }
{
    &script.lines.as_slice()[command]
}

/// Appends a ticket's line.
fn push_ticket(
    text: &mut Vec<u8>,
    ticket: usize,
    player: &[u8],
    line: u32,
    reply: &Reply,
) -> Result<(), Memory>
    ensures { OnOk result (text.new.items ≡ text.old.items ++ ticket_text ticket player.now line reply.now) }
{
    let mut number = Buffer::new();
    text.extend_from_slice(number.format(ticket).as_bytes())?;
    text.extend_from_slice(b" ")?;
    text.extend_from_slice(player)?;
    text.extend_from_slice(b" ")?;
    text.extend_from_slice(number.format(line).as_bytes())?;
    text.extend_from_slice(b" ")?;
    push_reply(text, reply)?;
    text.extend_from_slice(b"\n")?;
    Ok(())
}

/// Appends a reply.
fn push_reply(text: &mut Vec<u8>, reply: &Reply) -> Result<(), Memory>
    ensures { OnOk result (text.new.items ≡ text.old.items ++ reply_text reply.now) }
{
    match reply {
        Reply::Accepted => text.extend_from_slice(b"ok")?,
        Reply::Changed(count) => {
            text.extend_from_slice(b"changed ")?;
            text.extend_from_slice(Buffer::new().format(*count).as_bytes())?;
        }
        Reply::Refused(refusal) => text.extend_from_slice(refusal_text(*refusal))?,
    }
    Ok(())
}

fn refusal_text(refusal: Refusal) -> &'static [u8]
    ensures { result.now ≡ refusal_text refusal }
{
    match refusal {
        Refusal::NoSelection => b"refused no selection",
        Refusal::NoPlace => b"refused no place",
        Refusal::NoClipboard => b"refused no clipboard",
        Refusal::NothingToUndo => b"refused nothing to undo",
        Refusal::NothingToRedo => b"refused nothing to redo",
    }
}
