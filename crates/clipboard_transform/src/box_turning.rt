//! Turns and flips of a box of relative positions.

ghost use Rattle.std.specs.Prelude.{◌≡◌, ◌<◌, if◌then◌else◌};
ghost use Rattle.edit_terms.specs.declared.direction.Direction.TheVariants.{East, Up};
ghost use Rattle.edit_terms.specs.Transform.{times};
ghost use Rattle.clipboard_transform.specs.Bounds.{IsBoxTurnable, quarter_turned_box, flipped_box, turned_box};

use crate::relative_box::RelativeBox;
use edit_terms::{Pos, Transform};

/// The box after a transform.
pub(crate) fn sent_box(t: &Transform, b: &RelativeBox) -> RelativeBox
    requires { IsBoxTurnable b.now }
    ensures { result ≡ turned_box t.now b.now }
{
    let east = flipped_x(t.flip_x, b);
    let up = flipped_y(t.flip_y, &east);
    turned(t.turns % 4, &up)
}

fn flipped_x(flips: bool, b: &RelativeBox) -> RelativeBox
    requires { IsBoxTurnable b.now }
    ensures value { result ≡ (if flips then flipped_box East b.now else b.now) }
    ensures turnable { IsBoxTurnable result }
{
    if !flips {
        return *b;
    }
    RelativeBox {
        least: Pos {
            x: -b.greatest.x,
            ..b.least
        },
        greatest: Pos {
            x: -b.least.x,
            ..b.greatest
        },
    }
}

fn flipped_y(flips: bool, b: &RelativeBox) -> RelativeBox
    requires { IsBoxTurnable b.now }
    ensures value { result ≡ (if flips then flipped_box Up b.now else b.now) }
    ensures turnable { IsBoxTurnable result }
{
    if !flips {
        return *b;
    }
    RelativeBox {
        least: Pos {
            y: -b.greatest.y,
            ..b.least
        },
        greatest: Pos {
            y: -b.least.y,
            ..b.greatest
        },
    }
}

fn turned(quarters: u8, b: &RelativeBox) -> RelativeBox
    requires few { quarters < 4 }
    requires turnable { IsBoxTurnable b.now }
    ensures { result ≡ times quarters quarter_turned_box b.now }
{
    match quarters {
        0 => *b,
        1 => quarter_turned(b),
        2 => {
            let once = quarter_turned(b);
            quarter_turned(&once)
        }
        _ => {
            let once = quarter_turned(b);
            let twice = quarter_turned(&once);
            quarter_turned(&twice)
        }
    }
}

fn quarter_turned(b: &RelativeBox) -> RelativeBox
    requires { IsBoxTurnable b.now }
    ensures value { result ≡ quarter_turned_box b.now }
    ensures turnable { IsBoxTurnable result }
{
    RelativeBox {
        least: Pos {
            x: -b.greatest.z,
            y: b.least.y,
            z: b.least.x,
        },
        greatest: Pos {
            x: -b.least.z,
            y: b.greatest.y,
            z: b.greatest.x,
        },
    }
}
