//! Bounds of clipboards.

ghost use Rattle.std.specs.Prelude.{IfSome, ◌≡◌};
ghost use Rattle.clipboard_transform.specs.Bounds.{IsOnMap};

use crate::regions::selection_of;
use crate::turns::transform_of;
use crate::words::{area_of, pos_of, put, put_pos};
use case_lines::Answer;
use clipboard_transform::{RelativeBox, clip_box};
use edit_terms::{Clip, Pos, Selection, Source, Transform};

/// `clip BOX ORIGIN TRANSFORM SELECTION`: the bounds of what was copied from a position, cut by a box and turned: the
/// least and the greatest position. None where nothing is left.
pub(crate) fn clip(input: &str, answer: &mut Answer) -> Option<()> {
    let (word, rest) = input.split_once(' ')?;
    let area = area_of(word)?;
    let (origin, rest) = rest.split_once(' ')?;
    let (t, rest) = rest.split_once(' ')?;
    let clip = clip_of(on_map(origin)?, transform_of(t)?, selection_of(rest)?);
    match clip_box(&clip, &area) {
        Some(bounds) => {
            put_bounds(&bounds, answer);
            Some(())
        }
        None => {
            answer.text("none");
            Some(())
        }
    }
}

fn clip_of(origin: Pos, transform: Transform, from: Selection) -> Clip
    ensures { result.origin ≡ origin }
{
    Clip {
        source: Source { player: 0, step: 0 },
        from,
        origin,
        transform,
    }
}

/// The position of a word, on the map.
fn on_map(word: &str) -> Option<Pos>
    ensures { IfSome result (λ p. IsOnMap p) }
{
    let p = pos_of(word)?;
    if p.x < -33_554_432 || p.x > 33_554_431 || p.z < -33_554_432 || p.z > 33_554_431 {
        return None;
    }
    if p.y < -2_048 || p.y > 2_047 {
        return None;
    }
    Some(p)
}

fn put_bounds(bounds: &RelativeBox, answer: &mut Answer) {
    put_pos(&bounds.least, answer);
    answer.text(" to ");
    put_pos(&bounds.greatest, answer)
}
