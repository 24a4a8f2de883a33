//! From where a stack or a move brings contents.
ghost use Rattle.std.specs.Prelude.{◌≡◌, ◌≤◌, false, MatchOption, pos, neg_ℤ};
ghost use Rattle.edit_terms.specs.Neighbour.{away};
ghost use Rattle.clipboard_transform.specs.Bounds.{IsOnMap};
ghost use Rattle.run_terms.specs.Effect.{is_source};
ghost use Rattle.plain_effects.specs.Sources.{StandsAtSource};

use edit_terms::{Content, Direction, Pos, Selection};
use plain_terms::{Blocks, is_selected};

/// The content at a selected position of the box. None exactly where it isn't one.
pub(crate) fn source<'a>(blocks: &Blocks<'a>, from: &Selection, q: &Pos) -> Option<&'a Content>
    ensures { MatchOption result (is_source from.now blocks.now q.now ≡ false) (λ c. StandsAtSource from.now blocks.now q.now c.now) }
{
    if !is_selected(from, q) {
        return None;
    }
    blocks.at(q)
}

/// The position from which a content comes that is brought so many blocks on in a direction.
pub(crate) fn behind(to: Direction, count: u32, p: &Pos) -> Pos
    requires few { count ≤ 65535 }
    requires map { IsOnMap p.now }
    ensures { result ≡ away to (neg_ℤ (pos count)) p.now }
{
    let far = count as i32;
    match to {
        Direction::North => Pos { z: p.z + far, ..*p },
        Direction::South => Pos { z: p.z - far, ..*p },
        Direction::East => Pos { x: p.x - far, ..*p },
        Direction::West => Pos { x: p.x + far, ..*p },
        Direction::Up => Pos { y: p.y - far, ..*p },
        Direction::Down => Pos { y: p.y + far, ..*p },
    }
}
