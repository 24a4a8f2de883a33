//! Replies as texts.

use case_lines::Answer;
use edit_terms::{Refusal, Reply};

/// Appends replies.
pub(crate) fn push_replies(answer: &mut Answer, replies: &[Reply]) {
    if replies.is_empty() {
        answer.text("nothing");
        return;
    }
    let mut comma = "";
    for reply in replies {
        answer.text(comma);
        push_reply(answer, reply);
        comma = ", ";
    }
}

fn push_reply(answer: &mut Answer, reply: &Reply) {
    match reply {
        Reply::Accepted => answer.text("ok"),
        Reply::Changed(count) => answer.number(*count),
        Reply::Refused(refusal) => push_refusal(answer, *refusal),
    }
}

/// Appends what is wanting.
pub(crate) fn push_refusal(answer: &mut Answer, refusal: Refusal) {
    let text = match refusal {
        Refusal::NoSelection => "no selection",
        Refusal::NoPlace => "no place",
        Refusal::NoClipboard => "no clipboard",
        Refusal::NothingToUndo => "nothing to undo",
        Refusal::NothingToRedo => "nothing to redo",
    };
    answer.text(text)
}
