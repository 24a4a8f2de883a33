//! Clipboards as texts.

use crate::positions::push_position;
use crate::selections::push_selection;
use case_lines::Answer;
use edit_terms::{Clip, Transform};

/// Appends the command that copied, the selection, the place and the turns.
pub(crate) fn push_clip(answer: &mut Answer, clip: &Clip) {
    answer.number(clip.source.player);
    answer.text(":");
    answer.number(clip.source.step);
    answer.text(" ");
    push_selection(answer, &clip.from);
    answer.text(" from ");
    push_position(answer, &clip.origin);
    push_transform(answer, &clip.transform)
}

/// Appends the flips and the quarter turns.
fn push_transform(answer: &mut Answer, transform: &Transform) {
    if transform.flip_x {
        answer.text(" flip x");
    }
    if transform.flip_y {
        answer.text(" flip y");
    }
    answer.text(" turns ");
    answer.number(transform.turns)
}
