//! Boxes and positions as texts: `WxHxL`, `WxHxL@X,Y,Z` with a least corner other than 0,0,0, and `X,Y,Z`.

use case_lines::Answer;
use edit_terms::{Pos, WorldBox};

/// The box of a text.
pub fn box_of(text: &str) -> Option<WorldBox> {
    let (sizes, least) = match text.split_once('@') {
        Some(parts) => parts,
        None => (text, "0,0,0"),
    };
    let (width, rest) = sizes.split_once('x')?;
    let (height, length) = rest.split_once('x')?;
    WorldBox::new(
        position_of(least)?,
        width.parse::<u32>().ok()?,
        height.parse::<u32>().ok()?,
        length.parse::<u32>().ok()?,
    )
}

/// The position of a text.
pub fn position_of(text: &str) -> Option<Pos> {
    let (x, rest) = text.split_once(',')?;
    let (y, z) = rest.split_once(',')?;
    Some(Pos {
        x: x.parse::<i32>().ok()?,
        y: y.parse::<i32>().ok()?,
        z: z.parse::<i32>().ok()?,
    })
}

/// Puts a position behind an answer.
pub fn tell_position(answer: &mut Answer, p: &Pos) {
    answer.number(p.x);
    answer.text(",");
    answer.number(p.y);
    answer.text(",");
    answer.number(p.z)
}

/// Puts a box behind an answer.
pub fn tell_box(answer: &mut Answer, area: &WorldBox) {
    answer.number(area.width());
    answer.text("x");
    answer.number(area.height());
    answer.text("x");
    answer.number(area.length());
    answer.text("@");
    tell_position(answer, &area.least())
}

/// Puts a separator behind an answer that has something.
pub fn tell_between(answer: &mut Answer, separator: &str) {
    if answer.is_empty() {
        return;
    }
    answer.text(separator)
}
