//! Contents get numbers.

ghost use Rattle.std.specs.Prelude.{◌≡◌, ◌<◌, length, get_or, IfOk};
ghost use Rattle.edit_terms.specs.World.{air_content};
ghost use Rattle.world_canvas.specs.Canvas.{IsGrown};
ghost use Rattle.world_canvas.specs.Numbering.{IsName, AreNumbersOf};

use block_palette::Palette;
use edit_terms::Content;
use memory::Memory;
use std::alloc::Global;

/// The number of a content, which gets one if it has none.
#[tactic(auto, using(crate::proofs::Renumbering::named_by_palette))]
pub(crate) fn number(kinds: &mut Palette<Content>, content: Content) -> Result<u32, Memory>
    ensures grown { IsGrown kinds.old kinds.new }
    ensures name { IfOk result (λ n. IsName kinds.new n content) }
{
    if kinds.len() == u32::MAX {
        return Err(Memory);
    }
    Ok(kinds.number(content)?)
}

/// The number of each of these contents.
pub(crate) fn number_all(
    alloc: Global,
    kinds: &mut Palette<Content>,
    contents: &[Content],
) -> Result<Vec<u32>, Memory>
    ensures grown { IsGrown kinds.old kinds.new }
    ensures numbers { IfOk result (λ numbers. AreNumbersOf kinds.new contents.now numbers.items) }
{
    let mut numbers = Vec::with_capacity(alloc, contents.len())?;
    for content in contents {
        numbers.push(number(kinds, content.copy(alloc)?)?)?;
    }
    Ok(numbers)
}

/// The content of a number.
#[tactic(auto, using(std::proofs::lemmas::Option::get_or_from_slice_get))]
pub(crate) fn content(kinds: &Palette<Content>, number: u32) -> &Content
    requires { number < length kinds.now }
    ensures { result.now ≡ get_or kinds.now number air_content }
{
    let Some(content) = kinds.entry(number) else {
        unreachable!()
    };
    content
}

/// The contents of a palette, in the order of their numbers.
pub(crate) fn contents_of(alloc: Global, kinds: &Palette<Content>) -> Result<Vec<Content>, Memory>
    ensures { IfOk result (λ contents. contents.items ≡ kinds.now) }
{
    let mut contents = Vec::new(alloc);
    for number in 0..kinds.len() {
        contents.push(content(kinds, number).copy(alloc)?)?;
    }
    Ok(contents)
}
