//! Where a transform sends a relative position, and from where it brings one.

ghost use Rattle.std.specs.Prelude.{◌≡◌};
ghost use Rattle.edit_terms.specs.Transform.{turned_position, source_position};
ghost use Rattle.clipboard_transform.specs.Reach.{IsTurnable};

use crate::turning::{flipped_x, flipped_y, turned};
use edit_terms::laws::inverse_transform;
use edit_terms::{Pos, Transform};

/// Where a transform sends a relative position. Each coordinate is above -2^31.
pub fn place(t: &Transform, relative: Pos) -> Pos
    requires { IsTurnable relative }
    ensures value { result ≡ turned_position t.now relative }
    ensures undone { source_position t.now result ≡ relative }
    ensures turnable { IsTurnable result }
{
    inverse_transform();
    sent(t, &relative)
}

/// The relative position that a transform sends to this one. Each coordinate is above -2^31.
pub fn source(t: &Transform, relative: Pos) -> Pos
    requires { IsTurnable relative }
    ensures value { result ≡ source_position t.now relative }
    ensures undone { turned_position t.now result ≡ relative }
    ensures turnable { IsTurnable result }
{
    inverse_transform();
    brought(t, &relative)
}

fn sent(t: &Transform, relative: &Pos) -> Pos
    requires { IsTurnable relative.now }
    ensures value { result ≡ turned_position t.now relative.now }
    ensures turnable { IsTurnable result }
{
    let east = flipped_x(t.flip_x, relative);
    let up = flipped_y(t.flip_y, &east);
    turned(t.turns % 4, &up)
}

fn brought(t: &Transform, relative: &Pos) -> Pos
    requires { IsTurnable relative.now }
    ensures value { result ≡ source_position t.now relative.now }
    ensures turnable { IsTurnable result }
{
    let back = turned((4 - t.turns % 4) % 4, relative);
    let up = flipped_y(t.flip_y, &back);
    flipped_x(t.flip_x, &up)
}
