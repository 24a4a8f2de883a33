//! One flip and one quarter turn of a relative position.

ghost use Rattle.std.specs.Prelude.{◌≡◌, ◌<◌, if◌then◌else◌};
ghost use Rattle.edit_terms.specs.declared.direction.Direction.TheVariants.{East, Up};
ghost use Rattle.edit_terms.specs.Transform.{times, quarter_turned_position, flipped_position};
ghost use Rattle.clipboard_transform.specs.Reach.{IsTurnable};

use edit_terms::Pos;

/// The position after a flip along x, where there is one.
pub(crate) fn flipped_x(flips: bool, r: &Pos) -> Pos
    requires { IsTurnable r.now }
    ensures value { result ≡ (if flips then flipped_position East r.now else r.now) }
    ensures turnable { IsTurnable result }
{
    if !flips {
        return *r;
    }
    Pos { x: -r.x, ..*r }
}

/// The position after a flip along y, where there is one.
pub(crate) fn flipped_y(flips: bool, r: &Pos) -> Pos
    requires { IsTurnable r.now }
    ensures value { result ≡ (if flips then flipped_position Up r.now else r.now) }
    ensures turnable { IsTurnable result }
{
    if !flips {
        return *r;
    }
    Pos { y: -r.y, ..*r }
}

/// The position after so many quarter turns, fewer than 4.
pub(crate) fn turned(quarters: u8, r: &Pos) -> Pos
    requires few { quarters < 4 }
    requires turnable { IsTurnable r.now }
    ensures value { result ≡ times quarters quarter_turned_position r.now }
    ensures turnable { IsTurnable result }
{
    match quarters {
        0 => *r,
        1 => quarter_turned(r),
        2 => {
            let once = quarter_turned(r);
            quarter_turned(&once)
        }
        _ => {
            let once = quarter_turned(r);
            let twice = quarter_turned(&once);
            quarter_turned(&twice)
        }
    }
}

fn quarter_turned(r: &Pos) -> Pos
    requires { IsTurnable r.now }
    ensures value { result ≡ quarter_turned_position r.now }
    ensures turnable { IsTurnable result }
{
    Pos {
        x: -r.z,
        z: r.x,
        ..*r
    }
}
