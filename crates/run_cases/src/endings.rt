//! Statuses and printed texts as answers.

use case_lines::Answer;
use command_syntax::ScriptFault;
use edit_top::Status;
use sponge_schematic::WorldFault;

/// The code of a status that is named.
pub fn answer(name: &str, answer: &mut Answer) -> Option<()> {
    let status = status_of(name)?;
    push_status(&status, answer);
    Some(())
}

fn status_of(name: &str) -> Option<Status> {
    match name {
        "done" => Some(Status::Done),
        "usage" => Some(Status::Usage),
        "read fault" => Some(Status::ReadFault { file: 1 }),
        "too long" => Some(Status::TooLong { file: 0 }),
        "world refused" => Some(Status::WorldRefused {
            fault: WorldFault::Empty,
        }),
        "script refused" => Some(Status::ScriptRefused {
            script: 1,
            fault: ScriptFault::NoPlayer,
        }),
        "duplicate player" => Some(Status::DuplicatePlayer { script: 2 }),
        "too many jobs" => Some(Status::TooManyJobs { jobs: 16_777_217 }),
        "save fault" => Some(Status::SaveFault),
        "print fault" => Some(Status::PrintFault),
        "out of memory" => Some(Status::OutOfMemory),
        _ => None,
    }
}

/// Puts a status and a printed text behind an answer.
pub fn push_ending(status: &Status, printed: &[u8], answer: &mut Answer) {
    push_status(status, answer);
    answer.text("; ");
    push_printed(printed, answer)
}

/// Puts a status behind an answer: its code, its name and its numbers.
pub fn push_status(status: &Status, answer: &mut Answer) {
    answer.number(status.code());
    match status {
        Status::Done => answer.text(" Done"),
        Status::Usage => answer.text(" Usage"),
        Status::ReadFault { file } => push_numbered(" ReadFault ", *file, answer),
        Status::TooLong { file } => push_numbered(" TooLong ", *file, answer),
        Status::WorldRefused { .. } => answer.text(" WorldRefused"),
        Status::ScriptRefused { script, .. } => push_numbered(" ScriptRefused ", *script, answer),
        Status::DuplicatePlayer { script } => push_numbered(" DuplicatePlayer ", *script, answer),
        Status::TooManyJobs { jobs } => {
            answer.text(" TooManyJobs ");
            answer.number(*jobs)
        }
        Status::SaveFault => answer.text(" SaveFault"),
        Status::PrintFault => answer.text(" PrintFault"),
        Status::OutOfMemory => answer.text(" OutOfMemory"),
    }
}

fn push_numbered(name: &str, number: u32, answer: &mut Answer) {
    answer.text(name);
    answer.number(number)
}

/// Shows a printed text: whole lines with ` | ` between them. A text that ends inside a line has `..` behind it, and one
/// without bytes is `nothing`.
fn push_printed(text: &[u8], answer: &mut Answer) {
    match text {
        [] => answer.text("nothing"),
        [lines @ .., b'\n'] => push_lines(lines, answer),
        _ => {
            push_lines(text, answer);
            answer.text("..");
        }
    }
}

fn push_lines(text: &[u8], answer: &mut Answer) {
    for byte in text {
        match byte {
            b'\n' => answer.text(" | "),
            byte => answer.byte(*byte),
        }
    }
}
