//! Words that are one of a few.
ghost use Rattle.std.specs.Prelude.{◌≡◌};
ghost use Rattle.command_syntax.specs.Choice.{direction_of, kind_of, skip_air_of};
ghost use Rattle.block_state.specs.Read.{Gives};
ghost use Rattle.command_syntax.specs.Read.{IsStop};

use crate::fault::LineFault;
use crate::stop::Stop;
use edit_terms::{Direction, Kind};

/// A direction, or its first letter.
pub(crate) fn direction_of(word: &[u8]) -> Result<Direction, Stop>
    ensures { Gives IsStop (λ d. d) (direction_of word.now) result }
{
    if word == b"north".as_slice() || word == b"n".as_slice() {
        return Ok(Direction::North);
    }
    if word == b"south".as_slice() || word == b"s".as_slice() {
        return Ok(Direction::South);
    }
    if word == b"east".as_slice() || word == b"e".as_slice() {
        return Ok(Direction::East);
    }
    if word == b"west".as_slice() || word == b"w".as_slice() {
        return Ok(Direction::West);
    }
    if word == b"up".as_slice() || word == b"u".as_slice() {
        return Ok(Direction::Up);
    }
    if word == b"down".as_slice() || word == b"d".as_slice() {
        return Ok(Direction::Down);
    }
    Err(Stop::Fault(LineFault::BadDirection))
}

/// The shape of a selection.
pub(crate) fn kind_of(word: &[u8]) -> Result<Kind, Stop>
    ensures { Gives IsStop (λ kind. kind) (kind_of word.now) result }
{
    if word == b"cuboid".as_slice() {
        return Ok(Kind::Cuboid);
    }
    if word == b"sphere".as_slice() {
        return Ok(Kind::Sphere);
    }
    if word == b"cyl".as_slice() {
        return Ok(Kind::Cylinder);
    }
    Err(Stop::Fault(LineFault::BadOption))
}

/// The option of pasting: whether the clipboard's air stays out.
pub(crate) fn skip_air_of(word: &[u8]) -> Result<bool, Stop>
    ensures { Gives IsStop (λ skip_air. skip_air) (skip_air_of word.now) result }
{
    if word == b"-a".as_slice() {
        return Ok(true);
    }
    Err(Stop::Fault(LineFault::BadOption))
}
