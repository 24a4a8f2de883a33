//! Turned and flipped positions. A transform is `x` for a flip along x, then `y` for one along y, then the number of quarter
//! turns.

ghost use Rattle.std.specs.Prelude.{IfSome};
ghost use Rattle.clipboard_transform.specs.Reach.{IsTurnable};

use crate::words::{pos_of, put, put_pos};
use case_lines::Answer;
use clipboard_transform::{place, source, then_flip, then_turn};
use edit_terms::{Direction, Pos, Transform};

/// The transform of a word.
pub(crate) fn transform_of(word: &str) -> Option<Transform> {
    let (flip_x, word) = without(word, 'x');
    let (flip_y, word) = without(word, 'y');
    Some(Transform {
        flip_x,
        flip_y,
        turns: word.parse().ok()?,
    })
}

/// Whether a word begins with this letter, and what stands behind it.
fn without(word: &str, letter: char) -> (bool, &str) {
    match word.strip_prefix(letter) {
        Some(rest) => (true, rest),
        None => (false, word),
    }
}

/// The position of a word, whose coordinates are above -2^31.
fn turnable_of(word: &str) -> Option<Pos>
    ensures { IfSome result (λ p. IsTurnable p) }
{
    let p = pos_of(word)?;
    if p.x == i32::MIN || p.y == i32::MIN || p.z == i32::MIN {
        return None;
    }
    Some(p)
}

/// `moves TRANSFORM POSITION`: where a transform sends a position, and from where it brings one there. Each undoes the
/// other.
pub(crate) fn moves(input: &str, answer: &mut Answer) -> Option<()> {
    let (t, p) = input.split_once(' ')?;
    let t = transform_of(t)?;
    let p = turnable_of(p)?;
    let sent = place(&t, p);
    let brought = source(&t, p);
    if source(&t, sent) != p || place(&t, brought) != p {
        return None;
    }
    put_pos(&sent, answer);
    answer.text(" ");
    put_pos(&brought, answer);
    Some(())
}

/// `turns TRANSFORM POSITION`: where a position is sent by a transform and behind it 0 to 5 quarter turns, done as one.
pub(crate) fn turns(input: &str, answer: &mut Answer) -> Option<()> {
    let (t, p) = input.split_once(' ')?;
    let t = transform_of(t)?;
    let p = turnable_of(p)?;
    for quarters in 0..6 {
        put_sent(&then_turn(t, quarters), p, answer);
    }
    answer.text("end");
    Some(())
}

/// `flips TRANSFORM POSITION`: where a position is sent by a transform and behind it a flip to north, south, east, west,
/// up and down, done as one.
pub(crate) fn flips(input: &str, answer: &mut Answer) -> Option<()> {
    let (t, p) = input.split_once(' ')?;
    let t = transform_of(t)?;
    let p = turnable_of(p)?;
    for word in "north south east west up down".split(' ') {
        put_sent(&then_flip(t, direction_of(word)?), p, answer);
    }
    answer.text("end");
    Some(())
}

/// Puts where a transform sends a position, and `;`.
fn put_sent(t: &Transform, p: Pos, answer: &mut Answer)
    requires { IsTurnable p }
{
    put_pos(&place(t, p), answer);
    answer.text(";")
}

/// `turn TRANSFORM QUARTERS`: a transform and behind it so many quarter turns as one.
pub(crate) fn turn(input: &str, answer: &mut Answer) -> Option<()> {
    let (t, quarters) = input.split_once(' ')?;
    put_transform(&then_turn(transform_of(t)?, quarters.parse().ok()?), answer);
    Some(())
}

/// `flip TRANSFORM DIRECTION`: a transform and behind it a flip as one.
pub(crate) fn flip(input: &str, answer: &mut Answer) -> Option<()> {
    let (t, to) = input.split_once(' ')?;
    put_transform(&then_flip(transform_of(t)?, direction_of(to)?), answer);
    Some(())
}

fn put_transform(t: &Transform, answer: &mut Answer) {
    answer.text(if t.flip_x { "x" } else { "" });
    answer.text(if t.flip_y { "y" } else { "" });
    answer.number(t.turns)
}

fn direction_of(word: &str) -> Option<Direction> {
    match word {
        "north" => Some(Direction::North),
        "south" => Some(Direction::South),
        "east" => Some(Direction::East),
        "west" => Some(Direction::West),
        "up" => Some(Direction::Up),
        "down" => Some(Direction::Down),
        _ => None,
    }
}
