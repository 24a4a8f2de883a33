//! Positions and boxes as words.

use case_lines::Answer;
use edit_terms::{Pos, WorldBox};

/// Puts a text behind what is there.
pub(crate) fn put(answer: &mut Answer, text: &str) {
    answer.text(text)
}

/// The position of a word `X,Y,Z`.
pub(crate) fn pos_of(word: &str) -> Option<Pos> {
    let (x, rest) = word.split_once(',')?;
    let (y, z) = rest.split_once(',')?;
    Some(Pos {
        x: x.parse().ok()?,
        y: y.parse().ok()?,
        z: z.parse().ok()?,
    })
}

/// Puts a position.
pub(crate) fn put_pos(p: &Pos, answer: &mut Answer) {
    answer.number(p.x);
    answer.text(",");
    answer.number(p.y);
    answer.text(",");
    answer.number(p.z)
}

/// The box of a word that is one, if such a box may be.
pub(crate) fn box_of(word: &str) -> Option<Option<WorldBox>> {
    let (sizes, least) = word.split_once('@')?;
    let (width, rest) = sizes.split_once(',')?;
    let (height, length) = rest.split_once(',')?;
    Some(WorldBox::new(
        pos_of(least)?,
        width.parse().ok()?,
        height.parse().ok()?,
        length.parse().ok()?,
    ))
}

/// The box of a word, which has to be one.
pub(crate) fn area_of(word: &str) -> Option<WorldBox> {
    box_of(word)?
}

/// Puts a box.
pub(crate) fn put_box(area: &WorldBox, answer: &mut Answer) {
    answer.number(area.width());
    answer.text(",");
    answer.number(area.height());
    answer.text(",");
    answer.number(area.length());
    answer.text("@");
    put_pos(&area.least(), answer)
}

/// Puts a number, or `none`.
pub(crate) fn put_maybe(number: Option<u32>, answer: &mut Answer) {
    match number {
        Some(number) => answer.number(number),
        None => answer.text("none"),
    }
}
