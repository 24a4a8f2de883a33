//! The position at a place of the list of a box's blocks.
ghost use Rattle.std.specs.Prelude.{◌≡◌, ◌<◌, true};
ghost use Rattle.edit_terms.specs.Area.{holds, position_of, volume};
ghost use Rattle.clipboard_transform.specs.Bounds.{IsOnMap};

use edit_terms::{Pos, WorldBox};

/// The position at a place of the list.
#[tactic(auto, using(plain_terms::proofs::MapLemmas::held_on_map))]
pub(crate) fn position(area: &WorldBox, index: u32) -> Pos
    requires { index < volume area.now }
    ensures value { result ≡ position_of area.now index }
    ensures held { holds area.now result ≡ true }
    ensures map { IsOnMap result }
{
    area.well_formed();
    let Some(p) = area.position(index) else {
        unreachable!()
    };
    p
}
