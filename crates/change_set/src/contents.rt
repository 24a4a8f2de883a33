//! The distinct contents of changes, by their numbers.
ghost use Rattle.std.specs.Prelude.{◌≡◌, ◌<◌, true, length, get_or, IfOk};
ghost use Rattle.edit_terms.specs.Same.{same_content};
ghost use Rattle.edit_terms.specs.World.{air_content};
ghost use Rattle.change_set.specs.ContentRun.{IsGrown, IsName};

use block_palette::Palette;
use edit_terms::Content;
use memory::Memory;
use std::alloc::Global;

/// The numbers of the contents before and after.
#[derive(Clone, Copy)]
pub(crate) struct Pair {
    pub(crate) before: u32,
    pub(crate) after: u32,
}

/// The numbers of two contents, which get them if they have none. Those of other contents, near them in the list,
/// are tried first, since contents come again.
///
/// After `Memory` there may be more contents than there were.
#[tactic(auto, using(crate::proofs::ContentLemmas::grown_again, crate::proofs::ContentLemmas::name_stays))]
pub(crate) fn number_pair(
    alloc: Global,
    contents: &mut Palette<Content>,
    near: Pair,
    before: &Content,
    after: &Content,
) -> Result<Pair, Memory>
    ensures grown { IsGrown contents.old contents.new }
    ensures before { IfOk result (λ pair. IsName contents.new pair.before before.now) }
    ensures after { IfOk result (λ pair. IsName contents.new pair.after after.now) }
{
    let before = number(alloc, contents, near.before, before)?;
    let after = number(alloc, contents, near.after, after)?;
    Ok(Pair { before, after })
}

/// The number of a content, which gets one if it has none. The number near it is tried first.
#[tactic(auto, using(crate::proofs::ContentLemmas::named_by_palette, crate::proofs::ContentLemmas::grown_itself))]
fn number(
    alloc: Global,
    contents: &mut Palette<Content>,
    near: u32,
    content: &Content,
) -> Result<u32, Memory>
    ensures grown { IsGrown contents.old contents.new }
    ensures name { IfOk result (λ n. IsName contents.new n content.now) }
{
    if is_named(contents, near, content) {
        return Ok(near);
    }
    if let Some(number) = contents.find(content) {
        return Ok(number);
    }
    if contents.len() == u32::MAX {
        return Err(Memory);
    }
    Ok(contents.number(content.copy(alloc)?)?)
}

/// Whether this number has this content.
fn is_named(contents: &Palette<Content>, number: u32, content: &Content) -> bool
    ensures { result ≡ true → IsName contents.now number content.now }
{
    match contents.entry(number) {
        Some(there) => there == content,
        None => false,
    }
}

/// The content of a number.
#[tactic(auto, using(std::proofs::lemmas::Option::get_or_from_slice_get))]
pub(crate) fn content_of(contents: &Palette<Content>, number: u32) -> &Content
    requires { number < length contents.now }
    ensures { result.now ≡ get_or contents.now number air_content }
{
    let Some(content) = contents.entry(number) else {
        unreachable!()
    };
    content
}

/// Whether the content of a number is this one.
pub(crate) fn is_content(contents: &Palette<Content>, number: u32, content: &Content) -> bool
    requires { number < length contents.now }
    ensures { result ≡ same_content (get_or contents.now number air_content) content.now }
{
    *content_of(contents, number) == *content
}
