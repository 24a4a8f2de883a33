//! The text that tells what a world is made of.

ghost use Rattle.std.specs.Prelude.{◌≡◌, ◌++◌, IfOk, OnOk};
ghost use Rattle.std.specs.Fmt.{signed_decimal};
ghost use Rattle.edit_terms.specs.Grid.{world_of};
ghost use Rattle.edit_top.specs.CheckText.{IsWorldText, check_text, sizes_text, place_text};

use edit_terms::{Grid, Pos, WorldBox};
use itoa::Buffer;
use memory::Memory;
use state_counts::count_states;
use std::alloc::Global;

/// The text of a world: its box, and how many states its blocks have.
pub(crate) fn world_text(alloc: Global, world: &Grid) -> Result<Vec<u8>, Memory>
    ensures { IfOk result (λ text. IsWorldText (world_of world.now) text.items) }
{
    let counts = count_states(alloc, world)?;
    let text = check_text(alloc, world.area(), counts.len())?;
    Ok(text)
}

/// The text of a box whose blocks have so many states.
fn check_text(alloc: Global, area: &WorldBox, states: usize) -> Result<Vec<u8>, Memory>
    ensures { IfOk result (λ text. text.items ≡ check_text area.now states) }
{
    let mut text = Vec::from_slice(alloc, b"world ")?;
    push_sizes(&mut text, area)?;
    text.extend_from_slice(b" at ")?;
    push_place(&mut text, &area.least())?;
    text.extend_from_slice(b"\nstates ")?;
    text.extend_from_slice(Buffer::new().format(states).as_bytes())?;
    text.extend_from_slice(b"\ndone\n")?;
    Ok(text)
}

/// Appends the sizes of a box.
fn push_sizes(text: &mut Vec<u8>, area: &WorldBox) -> Result<(), Memory>
    ensures { OnOk result (text.new.items ≡ text.old.items ++ sizes_text area.now) }
{
    let mut number = Buffer::new();
    text.extend_from_slice(number.format(area.width()).as_bytes())?;
    text.extend_from_slice(b"x")?;
    text.extend_from_slice(number.format(area.height()).as_bytes())?;
    text.extend_from_slice(b"x")?;
    text.extend_from_slice(number.format(area.length()).as_bytes())?;
    Ok(())
}

/// Appends the coordinates of a position.
fn push_place(text: &mut Vec<u8>, place: &Pos) -> Result<(), Memory>
    ensures { OnOk result (text.new.items ≡ text.old.items ++ place_text place.now) }
{
    push_coordinate(text, &place.x)?;
    text.extend_from_slice(b",")?;
    push_coordinate(text, &place.y)?;
    text.extend_from_slice(b",")?;
    push_coordinate(text, &place.z)?;
    Ok(())
}

/// Appends a coordinate.
fn push_coordinate(text: &mut Vec<u8>, coordinate: &i32) -> Result<(), Memory>
    ensures { OnOk result (text.new.items ≡ text.old.items ++ signed_decimal coordinate.now) }
{
    text.extend_from_slice(Buffer::new().format(*coordinate).as_bytes())?;
    Ok(())
}
