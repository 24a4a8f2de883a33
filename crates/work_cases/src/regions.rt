//! Regions and their positions.

use crate::positions::position_of;
use case_lines::Answer;
use edit_terms::{Kind, Region, Selection};
use plain_terms::is_inside;

/// `PART SHAPE FIRST SECOND; POSITIONS`: whether each position is one of the region's. PART is `all`, `walls` or
/// `faces`.
pub(crate) fn answer(input: &str, answer: &mut Answer) -> Option<()> {
    let (text, positions) = input.split_once("; ")?;
    let region = region_of(text)?;
    for position in positions.split(' ') {
        push_inside(answer, &region, position);
    }
    Some(())
}

fn push_inside(answer: &mut Answer, region: &Region, position: &str) {
    match position_of(position) {
        Some(p) if is_inside(region, &p) => answer.text("+"),
        Some(_) => answer.text("-"),
        None => answer.fail(),
    }
}

fn region_of(text: &str) -> Option<Region> {
    let (part, selection) = text.split_once(' ')?;
    let selection = selection_of(selection)?;
    match part {
        "all" => Some(Region::Selected(selection)),
        "walls" => Some(Region::Walls(selection)),
        "faces" => Some(Region::Faces(selection)),
        _ => None,
    }
}

fn selection_of(text: &str) -> Option<Selection> {
    let (shape, rest) = text.split_once(' ')?;
    let (first, second) = rest.split_once(' ')?;
    Some(Selection {
        kind: kind_of(shape)?,
        first: position_of(first)?,
        second: position_of(second)?,
    })
}

fn kind_of(shape: &str) -> Option<Kind> {
    match shape {
        "cuboid" => Some(Kind::Cuboid),
        "sphere" => Some(Kind::Sphere),
        "cyl" => Some(Kind::Cylinder),
        _ => None,
    }
}
