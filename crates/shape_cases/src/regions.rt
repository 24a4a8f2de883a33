//! Regions as words: `KIND FIRST SECOND` is a selection, whose kind is `cuboid`, `sphere` or `cyl`, and `walls` or `faces`
//! may stand before it; `ball CENTRE RADIUS` and `tube CENTRE RADIUS HEIGHT` are shapes, and hollow as `hball` and
//! `htube`.

use crate::words::{area_of, pos_of, put, put_box};
use case_lines::Answer;
use edit_terms::{Kind, Region, Selection};
use region_shapes::{bounds, contains};

/// The region of words.
pub(crate) fn region_of(words: &str) -> Option<Region> {
    let (first, rest) = words.split_once(' ')?;
    match first {
        "walls" => Some(Region::Walls(selection_of(rest)?)),
        "faces" => Some(Region::Faces(selection_of(rest)?)),
        "ball" => ball_of(rest, false),
        "hball" => ball_of(rest, true),
        "tube" => tube_of(rest, false),
        "htube" => tube_of(rest, true),
        _ => Some(Region::Selected(selection_of(words)?)),
    }
}

/// The selection of words.
pub(crate) fn selection_of(words: &str) -> Option<Selection> {
    let (kind, rest) = words.split_once(' ')?;
    let (first, second) = rest.split_once(' ')?;
    Some(Selection {
        kind: kind_of(kind)?,
        first: pos_of(first)?,
        second: pos_of(second)?,
    })
}

fn kind_of(word: &str) -> Option<Kind> {
    match word {
        "cuboid" => Some(Kind::Cuboid),
        "sphere" => Some(Kind::Sphere),
        "cyl" => Some(Kind::Cylinder),
        _ => None,
    }
}

fn ball_of(words: &str, hollow: bool) -> Option<Region> {
    let (centre, radius) = words.split_once(' ')?;
    Some(Region::Ball {
        centre: pos_of(centre)?,
        radius: radius.parse().ok()?,
        hollow,
    })
}

fn tube_of(words: &str, hollow: bool) -> Option<Region> {
    let (centre, rest) = words.split_once(' ')?;
    let (radius, height) = rest.split_once(' ')?;
    Some(Region::Tube {
        centre: pos_of(centre)?,
        radius: radius.parse().ok()?,
        height: height.parse().ok()?,
        hollow,
    })
}

/// `inside POSITION REGION`: whether a position is of a region.
pub(crate) fn inside(input: &str, answer: &mut Answer) -> Option<()> {
    let (p, rest) = input.split_once(' ')?;
    let is_inside = contains(&region_of(rest)?, &pos_of(p)?);
    answer.text(if is_inside { "inside" } else { "outside" });
    Some(())
}

/// `bounds BOX REGION`: the bounding box of a region, cut by a box; none where nothing is left.
pub(crate) fn bounds_of(input: &str, answer: &mut Answer) -> Option<()> {
    let (word, rest) = input.split_once(' ')?;
    let area = area_of(word)?;
    match bounds(&region_of(rest)?, &area) {
        Some(bounds) => {
            put_box(&bounds, answer);
            Some(())
        }
        None => {
            answer.text("none");
            Some(())
        }
    }
}
