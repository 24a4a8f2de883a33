//! Selections and regions as texts.

use crate::positions::push_position;
use case_lines::Answer;
use edit_terms::{Kind, Pos, Region, Selection};

/// Appends a selection's shape and its two positions.
pub(crate) fn push_selection(answer: &mut Answer, selection: &Selection) {
    let shape = match selection.kind {
        Kind::Cuboid => "cuboid ",
        Kind::Sphere => "sphere ",
        Kind::Cylinder => "cyl ",
    };
    answer.text(shape);
    push_position(answer, &selection.first);
    answer.text(" ");
    push_position(answer, &selection.second)
}

/// Appends a region.
pub(crate) fn push_region(answer: &mut Answer, region: &Region) {
    match region {
        Region::Selected(selection) => push_selection(answer, selection),
        Region::Walls(selection) => push_part(answer, "walls of ", selection),
        Region::Faces(selection) => push_part(answer, "faces of ", selection),
        Region::Ball {
            centre,
            radius,
            hollow,
        } => push_ball(answer, centre, *radius, *hollow),
        Region::Tube {
            centre,
            radius,
            height,
            hollow,
        } => {
            push_ball(answer, centre, *radius, *hollow);
            answer.text(" high ");
            answer.number(*height)
        }
    }
}

fn push_part(answer: &mut Answer, part: &str, selection: &Selection) {
    answer.text(part);
    push_selection(answer, selection)
}

fn push_ball(answer: &mut Answer, centre: &Pos, radius: u32, hollow: bool) {
    let round = if hollow { "hollow round " } else { "round " };
    answer.text(round);
    answer.number(radius);
    answer.text(" about ");
    push_position(answer, centre)
}
