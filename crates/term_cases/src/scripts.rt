//! Scripts.

use crate::bytes::{MOST_BYTES, bytes_of, put};
use crate::commands::put_command;
use crate::faults::{put_line_fault, put_script_fault};
use case_lines::{Answer, script_of};
use command_syntax::{ScriptFault, read_script};
use edit_terms::{Line, Script};
use std::alloc::Global;

/// `script LINES`: the player and the numbered commands of a script, or its fault. The lines stand with ` | ` between.
pub(crate) fn script(alloc: Global, input: &str, answer: &mut Answer) -> Option<()> {
    put_read(alloc, &lines_of(alloc, input)?, answer)
}

/// `file TEXT`: the same of a text.
pub(crate) fn file(alloc: Global, input: &str, answer: &mut Answer) -> Option<()> {
    put_read(alloc, &bytes_of(alloc, input)?, answer)
}

/// `count LINES`: how many commands a script has, and the number of the last one's line, or the fault.
pub(crate) fn count(alloc: Global, input: &str, answer: &mut Answer) -> Option<()> {
    match read(alloc, &lines_of(alloc, input)?)? {
        Ok(script) => {
            put_count(script.lines.as_slice(), answer);
            Some(())
        }
        Err(fault) => {
            put_script_fault(alloc, &fault, answer);
            Some(())
        }
    }
}

/// `line LINE`: the command of a line, or its fault.
pub(crate) fn line(alloc: Global, input: &str, answer: &mut Answer) -> Option<()> {
    match read(alloc, &script_of_line(alloc, input)?)? {
        Ok(script) => put_only(alloc, script.lines.as_slice(), answer),
        Err(ScriptFault::Line { line: 2, fault }) => {
            put_line_fault(alloc, &fault, answer);
            Some(())
        }
        Err(_) => None,
    }
}

fn lines_of(alloc: Global, input: &str) -> Option<Vec<u8>> {
    let lines = script_of(alloc, input).ok()?;
    bytes_of(alloc, str::from_utf8(&lines).ok()?)
}

fn script_of_line(alloc: Global, input: &str) -> Option<Vec<u8>> {
    let mut text = Vec::from_slice(alloc, b"player a\n").ok()?;
    text.extend_from_slice(&bytes_of(alloc, input)?).ok()?;
    text.push(b'\n').ok()?;
    Some(text)
}

/// The script of bytes, or their fault. None for more bytes than any script has.
fn read(alloc: Global, text: &[u8]) -> Option<Result<Script, ScriptFault>> {
    if text.len() > MOST_BYTES {
        return None;
    }
    Some(read_script(alloc, text))
}

fn put_read(alloc: Global, text: &[u8], answer: &mut Answer) -> Option<()> {
    match read(alloc, text) {
        Some(Ok(script)) => put_script(alloc, &script, answer),
        Some(Err(fault)) => {
            put_script_fault(alloc, &fault, answer);
            Some(())
        }
        None => {
            answer.fail();
            Some(())
        }
    }
}

fn put_script(alloc: Global, script: &Script, answer: &mut Answer) -> Option<()> {
    answer.bytes(script.player.as_slice());
    for line in script.lines.as_slice() {
        put_line(alloc, line, answer)?;
    }
    Some(())
}

fn put_line(alloc: Global, line: &Line, answer: &mut Answer) -> Option<()> {
    answer.text(" | ");
    answer.number(line.number);
    answer.text(" ");
    put_command(alloc, &line.command, answer)
}

fn put_only(alloc: Global, lines: &[Line], answer: &mut Answer) -> Option<()> {
    match lines {
        [] => {
            answer.text("skipped");
            Some(())
        }
        [line] => put_command(alloc, &line.command, answer),
        _ => {
            answer.fail();
            Some(())
        }
    }
}

fn put_count(lines: &[Line], answer: &mut Answer) {
    answer.number(lines.len());
    answer.text(" to ");
    match lines.last() {
        Some(line) => answer.number(line.number),
        None => answer.fail(),
    }
}
