//! Positions as texts, `X,Y,Z`.

use case_lines::Answer;
use edit_terms::Pos;

/// The position of a text.
pub(crate) fn position_of(text: &str) -> Option<Pos> {
    let (x, rest) = text.split_once(',')?;
    let (y, z) = rest.split_once(',')?;
    Some(Pos {
        x: x.parse().ok()?,
        y: y.parse().ok()?,
        z: z.parse().ok()?,
    })
}

/// Appends a position.
pub(crate) fn push_position(answer: &mut Answer, p: &Pos) {
    answer.number(p.x);
    answer.text(",");
    answer.number(p.y);
    answer.text(",");
    answer.number(p.z)
}
