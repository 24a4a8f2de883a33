//! What a schematic says before its blocks: the version of the game's data, and the box.

ghost use Rattle.std.specs.Prelude.{◌≡◌, ◌<◌, ◌≤◌, ◌*◌, ◌^◌, true, IfOk, option_copied};
ghost use Rattle.edit_terms.specs.Area.{is_sized};
ghost use Rattle.sponge_schematic.specs.Answers.{Gives};
ghost use Rattle.sponge_schematic.specs.Header.{version_two, data_version_of, sized, some_blocks, few_blocks, sizes_of, corner_of, area_of, on_map};

use crate::fault::{Field, WorldFault};
use crate::fields::{field, int_field, size_field};
use edit_terms::{Pos, WorldBox};
use nbt_tags::{Named, Tag};

/// How many blocks a box may have.
const MOST_BLOCKS: u64 = 33_554_432;

/// The sizes of a box along x, y and z.
#[derive(Drop)]
struct Sizes {
    width: u16,
    height: u16,
    length: u16,
}

fn version_two(version: &i32) -> Result<(), WorldFault>
    ensures { Gives (λ x. tt) result (version_two version.now) }
{
    if *version != 2 {
        return Err(WorldFault::Version(*version));
    }
    Ok(())
}

/// The version of the game's data, behind the format's.
#[tactic(auto, unfolding(crate::specs::Header::data_version_of))]
pub(crate) fn data_version(row: &[Named]) -> Result<i32, WorldFault>
    ensures { Gives (λ x. x) result (data_version_of row.now) }
{
    let version = int_field(row, Field::Version)?;
    version_two(&version)?;
    int_field(row, Field::DataVersion)
}

fn some_blocks(sizes: &Sizes) -> Result<(), WorldFault>
    ensures { Gives (λ x. tt) result (some_blocks (sized sizes.now.width sizes.now.height sizes.now.length)) }
{
    if sizes.width == 0 || sizes.height == 0 || sizes.length == 0 {
        return Err(WorldFault::Empty);
    }
    Ok(())
}

fn volume(sizes: &Sizes) -> u64
    ensures { result ≡ sizes.now.width * sizes.now.height * sizes.now.length }
{
    u64::from(sizes.width) * u64::from(sizes.height) * u64::from(sizes.length)
}

fn few_blocks(sizes: &Sizes) -> Result<(), WorldFault>
    ensures { Gives (λ x. tt) result (few_blocks (sized sizes.now.width sizes.now.height sizes.now.length)) }
{
    let volume = volume(sizes);
    if volume > MOST_BLOCKS {
        return Err(WorldFault::TooLarge { volume });
    }
    Ok(())
}

/// The sizes, of which none is 0 and which make no more blocks than a box may have.
#[tactic(auto, unfolding(crate::specs::Header::sizes_of))]
fn box_sizes(row: &[Named]) -> Result<Sizes, WorldFault>
    ensures gives { Gives (λ x. sized x.width x.height x.length) result (sizes_of row.now) }
    ensures sized { IfOk result (λ x. is_sized (sized x.width x.height x.length) ≡ true) }
{
    let width = size_field(row, Field::Width)?;
    let height = size_field(row, Field::Height)?;
    let length = size_field(row, Field::Length)?;
    let sizes = Sizes {
        width,
        height,
        length,
    };
    some_blocks(&sizes)?;
    few_blocks(&sizes)?;
    Ok(sizes)
}

/// The box's least corner.
fn corner(tag: Option<&Tag>) -> Result<Pos, WorldFault>
    ensures { Gives (λ x. x) result (corner_of (option_copied tag.entry)) }
{
    let Some(tag) = tag else {
        return Ok(Pos { x: 0, y: 0, z: 0 });
    };
    let Tag::IntArray(numbers) = tag else {
        return Err(WorldFault::WrongType(Field::Offset));
    };
    match numbers.as_slice() {
        [x, y, z] => Ok(Pos {
            x: *x,
            y: *y,
            z: *z,
        }),
        _ => Err(WorldFault::WrongType(Field::Offset)),
    }
}

fn on_map(least: &Pos, sizes: &Sizes) -> Result<WorldBox, WorldFault>
    requires { is_sized (sized sizes.now.width sizes.now.height sizes.now.length) ≡ true }
    ensures { Gives (λ x. x) result (on_map (record { least = least.now; width = sizes.now.width; height = sizes.now.height; length = sizes.now.length })) }
{
    let width = u32::from(sizes.width);
    let height = u32::from(sizes.height);
    let length = u32::from(sizes.length);
    match WorldBox::new(*least, width, height, length) {
        None => Err(WorldFault::OutOfRange),
        Some(area) => Ok(area),
    }
}

/// The box.
#[tactic(auto, unfolding(crate::specs::Header::area_of))]
pub(crate) fn area(row: &[Named]) -> Result<WorldBox, WorldFault>
    ensures { Gives (λ x. x) result (area_of row.now) }
{
    let sizes = box_sizes(row)?;
    let least = corner(field(row, Field::Offset))?;
    on_map(&least, &sizes)
}
