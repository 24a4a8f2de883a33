//! Sessions.

ghost use Rattle.std.specs.Prelude.{◌≤◌};

use crate::numbers::number_behind;
use crate::scripts::one_script;
use crate::selections::push_selection;
use crate::steps::push_step;
use crate::transforms::push_clip;
use case_lines::Answer;
use edit_terms::{Command, Line, Step};
use player_session::Session;
use std::alloc::Global;

/// What is told behind each command.
#[derive(Clone, Copy)]
enum Told {
    Step,
    Selection,
    Clip,
}

/// `SCRIPT` or `depth N SCRIPT`: what each command is.
pub(crate) fn answer_steps(alloc: Global, input: &str, answer: &mut Answer) -> Option<()> {
    let (depth, script) = number_behind(input, "depth ", 15)?;
    if depth < 1 || depth > 1000 {
        return None;
    }
    tell_all(alloc, script, depth as u32, Told::Step, answer)
}

/// `SCRIPT`: the selection behind each command.
pub(crate) fn answer_selections(alloc: Global, input: &str, answer: &mut Answer) -> Option<()> {
    tell_all(alloc, input, 15, Told::Selection, answer)
}

/// `SCRIPT`: the clipboard behind each command.
pub(crate) fn answer_clips(alloc: Global, input: &str, answer: &mut Answer) -> Option<()> {
    tell_all(alloc, input, 15, Told::Clip, answer)
}

/// `PLAYER`: the player's number, the count of commands, the selection and the clipboard of a new session.
pub(crate) fn answer_new(alloc: Global, input: &str, answer: &mut Answer) -> Option<()> {
    let session = Session::start(alloc, input.parse().ok()?, 1).ok()?;
    answer.text("player ");
    answer.number(session.player());
    answer.text(", taken ");
    answer.number(session.number());
    answer.text(", selection ");
    tell_selection(&session, answer);
    answer.text(", clipboard ");
    tell_clip(&session, answer);
    Some(())
}

/// Appends what is told behind each command of player 7.
fn tell_all(alloc: Global, script: &str, depth: u32, told: Told, answer: &mut Answer) -> Option<()>
    requires low { 1 ≤ depth }
    requires high { depth ≤ 1000 }
{
    let script = one_script(alloc, script)?;
    let mut session = Session::start(alloc, 7, depth).ok()?;
    tell_lines(alloc, &mut session, script.lines.as_slice(), told, answer)
}

fn tell_lines(
    alloc: Global,
    session: &mut Session,
    lines: &[Line],
    told: Told,
    answer: &mut Answer,
) -> Option<()> {
    if lines.is_empty() {
        answer.text("nothing");
        return Some(());
    }
    let mut comma = "";
    for line in lines {
        answer.text(comma);
        let step = next(alloc, session, &line.command)?;
        tell(alloc, session, &step, told, answer);
        comma = " | ";
    }
    Some(())
}

/// The next command's step.
fn next(alloc: Global, session: &mut Session, command: &Command) -> Option<Step> {
    if session.number() == 10_000 {
        return None;
    }
    session.next(alloc, command).ok()
}

fn tell(alloc: Global, session: &Session, step: &Step, told: Told, answer: &mut Answer) {
    match told {
        Told::Step => push_step(alloc, answer, step),
        Told::Selection => tell_selection(session, answer),
        Told::Clip => tell_clip(session, answer),
    }
}

fn tell_selection(session: &Session, answer: &mut Answer) {
    match session.selection() {
        None => answer.text("none"),
        Some(selection) => push_selection(answer, &selection),
    }
}

fn tell_clip(session: &Session, answer: &mut Answer) {
    match session.clip() {
        None => answer.text("none"),
        Some(clip) => push_clip(answer, &clip),
    }
}
