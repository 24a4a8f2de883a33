//! Random words for a position and a use.
ghost use Rattle.std.specs.Prelude.{◌≡◌, ◌+◌, ◌*◌, ◌^◌, ◌<◌, negsuc};
ghost use Rattle.edit_terms.specs.Area.{offset};
ghost use Rattle.edit_terms.specs.Draw.{draw_place, draw_word};
ghost use Rattle.clipboard_transform.specs.Bounds.{IsOnMap};

use edit_terms::{Pos, random_word};

/// The word of 32 bits for a seed, a ticket, a use below 16 and a position of the map.
pub(crate) fn draw_word(seed: u64, ticket: u32, use_number: u32, p: &Pos) -> u32
    requires few { use_number < 16 }
    requires map { IsOnMap p.now }
    ensures { result ≡ draw_word seed ticket use_number p.now }
{
    random_word(seed, u64::from(ticket), draw_place(p, use_number))
}

fn draw_place(p: &Pos, use_number: u32) -> u128
    requires few { use_number < 16 }
    requires map { IsOnMap p.now }
    ensures value { result ≡ draw_place p.now use_number }
    ensures within { result < 2 ^ 68 }
{
    let place = (offset_x(p) * 67_108_864 + offset_z(p)) * 4_096 + offset_y(p);
    place * 16 + u128::from(use_number)
}

fn offset_x(p: &Pos) -> u128
    requires { IsOnMap p.now }
    ensures value { result ≡ offset (negsuc 33554431) p.now.x }
    ensures within { result < 67108864 }
{
    (i64::from(p.x) + 33_554_432) as u128
}

fn offset_y(p: &Pos) -> u128
    requires { IsOnMap p.now }
    ensures value { result ≡ offset (negsuc 2047) p.now.y }
    ensures within { result < 4096 }
{
    (i64::from(p.y) + 2_048) as u128
}

fn offset_z(p: &Pos) -> u128
    requires { IsOnMap p.now }
    ensures value { result ≡ offset (negsuc 33554431) p.now.z }
    ensures within { result < 67108864 }
{
    (i64::from(p.z) + 33_554_432) as u128
}
