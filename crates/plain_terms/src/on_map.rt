//! The places of the map.
ghost use Rattle.std.specs.Prelude.{◌≡◌, true, false, negsuc, MatchOption};
ghost use Rattle.edit_terms.specs.Area.{is_from, holds};
ghost use Rattle.plain_terms.specs.Places.{pos_of, is_placed_on_map, IsBlockOf};

use crate::place::Place;
use edit_terms::{Pos, WorldBox};

/// The block of the box at a place. None exactly where that is outside.
pub(crate) fn block_of(area: &WorldBox, place: &Place) -> Option<Pos>
    ensures { MatchOption result (holds area.now (pos_of place.now) ≡ false) (IsBlockOf area.now (pos_of place.now)) }
{
    area.well_formed();
    if !is_on_map(place) {
        return None;
    }
    let p = narrowed(place);
    if !area.holds(p) {
        return None;
    }
    Some(p)
}

fn is_on_map(place: &Place) -> bool
    ensures { result ≡ is_placed_on_map (pos_of place.now) }
{
    is_on_map_x(place) && is_on_map_y(place) && is_on_map_z(place)
}

fn is_on_map_x(place: &Place) -> bool
    ensures { result ≡ is_from (negsuc 33554431) 67108864 place.now.x }
{
    -33_554_432 <= place.x && place.x < 33_554_432
}

fn is_on_map_y(place: &Place) -> bool
    ensures { result ≡ is_from (negsuc 2047) 4096 place.now.y }
{
    -2_048 <= place.y && place.y < 2_048
}

fn is_on_map_z(place: &Place) -> bool
    ensures { result ≡ is_from (negsuc 33554431) 67108864 place.now.z }
{
    -33_554_432 <= place.z && place.z < 33_554_432
}

/// A place of the map as a position.
fn narrowed(place: &Place) -> Pos
    requires { is_placed_on_map (pos_of place.now) ≡ true }
    ensures { result ≡ pos_of place.now }
{
    Pos {
        x: place.x as i32,
        y: place.y as i32,
        z: place.z as i32,
    }
}
