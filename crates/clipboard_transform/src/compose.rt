//! Transforms one after the other.

ghost use Rattle.std.specs.Prelude.{◌≡◌, ◌+◌, ◌-◌, ◌%◌};
ghost use Rattle.edit_terms.specs.Transform.{then_turn, then_flip};

use edit_terms::{Direction, Transform};

/// The transform that does this one and then so many quarter turns, which count modulo 4.
pub fn then_turn(t: Transform, quarters: u8) -> Transform
    ensures { result ≡ then_turn t quarters }
{
    Transform {
        turns: sum_of_turns(t.turns, quarters),
        ..t
    }
}

/// The transform that does this one and then flips. A flip that comes behind turns goes before as many turns
/// the other way round.
pub fn then_flip(t: Transform, to: Direction) -> Transform
    ensures { result ≡ then_flip t to }
{
    match to {
        Direction::North | Direction::South => Transform {
            flip_x: !t.flip_x,
            turns: (6 - t.turns % 4) % 4,
            ..t
        },
        Direction::East | Direction::West => Transform {
            flip_x: !t.flip_x,
            turns: (4 - t.turns % 4) % 4,
            ..t
        },
        Direction::Up | Direction::Down => Transform {
            flip_y: !t.flip_y,
            ..t
        },
    }
}

fn sum_of_turns(a: u8, b: u8) -> u8
    ensures { result ≡ (a + b) % 4 }
{
    ((u16::from(a) + u16::from(b)) % 4) as u8
}
