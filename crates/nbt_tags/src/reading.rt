//! Reading a whole input.

ghost use Rattle.std.specs.Prelude.{◌≡◌, ◌<◌, ◌≤◌, ◌^◌, List, length, Ok, IfOk};
ghost use Rattle.nbt_tags.specs.declared.tag.Named.{Named};
ghost use Rattle.nbt_tags.specs.Spelling.{Spells, SpellsRow, max_depth};
ghost use Rattle.nbt_tags.specs.WellFormed.{IsWellFormed, IsWellFormedRow};
ghost use Rattle.nbt_tags.specs.Reading.{Gives, IsAnswer, fault_of, root_at, ended, whole_root, whole_row, row_spelled, decoded, decoded_row};

use crate::ending::Ending;
use crate::fault::NbtFault;
use crate::fields::kind_at;
use crate::flaw::{Cause, Failure, flaw_at};
use crate::payload::{entry, row};
use crate::tag::Named;
use memory::Memory;
use sqlite_items::Items;
use std::alloc::Global;
use std::collections::BTreeSet;

/// The greatest depth of a list or compound. The root has depth 1.
const MAX_DEPTH: usize = 512;

/// A named tag with its type byte.
#[tactic(auto, unfolding(crate::specs::Reading::root_at))]
fn root(alloc: Global, bytes: &[u8]) -> Result<(Named, &[u8]), Failure>
    ensures { Gives (λ x. (x.0, x.1.now)) result (root_at bytes.now) }
{
    let (kind, rest) = kind_at(bytes)?;
    let mut names = BTreeSet::new(alloc);
    entry(alloc, MAX_DEPTH, kind, &mut names, bytes, rest)
}

/// What was read, if nothing stands behind it.
#[tactic(auto, unfolding(crate::specs::Reading::ended))]
fn ended(named: Named, rest: &[u8]) -> Result<Named, Failure>
    ensures { Gives (λ x. x) result (ended named rest.now) }
{
    match rest {
        [] => Ok(named),
        _ => Err(flaw_at(Cause::Trailing, rest)),
    }
}

/// A named tag that is all of the bytes.
#[tactic(auto, unfolding(crate::specs::Reading::whole_root))]
fn whole_root(alloc: Global, bytes: &[u8]) -> Result<Named, Failure>
    ensures { Gives (λ x. x) result (whole_root bytes.now) }
{
    let (named, rest) = root(alloc, bytes)?;
    ended(named, rest)
}

/// A row that is all of the bytes.
#[tactic(auto, unfolding(crate::specs::Reading::whole_row))]
fn whole_row(alloc: Global, depth: usize, bytes: &[u8]) -> Result<Items<Named>, Failure>
    requires { depth ≤ 512 }
    ensures { Gives (λ x. x) result (whole_row depth bytes.now) }
{
    let (row, _) = row(alloc, MAX_DEPTH - depth, Ending::Input, bytes)?;
    Ok(row)
}

/// A fault by its place, in bytes of that length.
fn fault_of(size: usize, failure: Failure) -> NbtFault
    requires { size < 2 ^ 32 }
    ensures { result ≡ fault_of size failure }
{
    let Failure::Flaw(flaw) = failure else {
        return NbtFault::Memory;
    };
    let at = size.saturating_sub(flaw.left) as u32;
    match flaw.cause {
        Cause::Short => NbtFault::Short { at },
        Cause::BadType => NbtFault::BadType { at },
        Cause::BadCount => NbtFault::BadCount { at },
        Cause::Duplicate => NbtFault::Duplicate { at },
        Cause::Deep => NbtFault::Deep { at },
        Cause::Trailing => NbtFault::Trailing { at },
    }
}

/// The named tag that is all of the bytes, or their first fault.
fn decoded(alloc: Global, bytes: &[u8]) -> Result<Named, NbtFault>
    requires { length bytes.now < 2 ^ 32 }
    ensures { IsAnswer result (decoded bytes.now) }
{
    match whole_root(alloc, bytes) {
        Ok(named) => Ok(named),
        Err(failure) => Err(fault_of(bytes.len(), failure)),
    }
}

/// The row that is all of the bytes, or their first fault.
fn decoded_row(alloc: Global, bytes: &[u8], depth: usize) -> Result<Items<Named>, NbtFault>
    requires small { length bytes.now < 2 ^ 32 }
    requires within { depth ≤ 512 }
    ensures { IsAnswer result (decoded_row depth bytes.now) }
{
    match whole_row(alloc, depth, bytes) {
        Ok(row) => Ok(row),
        Err(failure) => Err(fault_of(bytes.len(), failure)),
    }
}

/// The named tag that is all of the bytes, or their first fault. The bytes are uncompressed, and the
/// tags are at most 512 deep.
pub fn decode(alloc: Global, bytes: &[u8]) -> Result<Named, NbtFault>
    requires { length bytes.now < 2 ^ 32 }
    // What is read is spelled so, by all of the bytes, and is well formed.
    ensures found { IfOk result (λ named. Spells named bytes.now) }
    ensures full { IfOk result (λ named. IsWellFormed named) }

    // What is spelled so is read, unless an allocation is refused.
    ensures only { (named : Named) → Spells named bytes.now → IsAnswer result (Ok named) }

    // Which fault it is.
    ensures exact { IsAnswer result (decoded bytes.now) }
{
    decoded(alloc, bytes)
}

/// The row of named tags that is all of the bytes, as it stands between the braces of a compound of
/// that depth, without the byte 0 behind it; or their first fault. A byte 0 in place of a type byte is
/// `BadType` here.
pub fn decode_row(alloc: Global, bytes: &[u8], depth: usize) -> Result<Items<Named>, NbtFault>
    requires small { length bytes.now < 2 ^ 32 }
    requires within { depth ≤ max_depth }

    // What is read is spelled so, by all of the bytes, and is well formed.
    ensures found { IfOk result (λ row. SpellsRow depth row bytes.now) }
    ensures full { IfOk result (λ row. IsWellFormedRow depth row) }

    // What is spelled so is read, unless an allocation is refused.
    ensures only { (row : List Named) → SpellsRow depth row bytes.now → IsAnswer result (Ok row) }

    // Which fault it is.
    ensures exact { IsAnswer result (decoded_row depth bytes.now) }
{
    decoded_row(alloc, bytes, depth)
}

/// The row of named tags that is all of the bytes, as it stands between the braces of a compound of that
/// depth, however many bytes there are. None where they spell no row.
pub fn read_row(alloc: Global, bytes: &[u8], depth: usize) -> Result<Option<Items<Named>>, Memory>
    requires { depth ≤ max_depth }
    ensures { IfOk result (λ row. row ≡ row_spelled depth bytes.now) }
{
    match whole_row(alloc, depth, bytes) {
        Ok(row) => Ok(Some(row)),
        Err(Failure::Flaw(_)) => Ok(None),
        Err(Failure::Memory) => Err(Memory),
    }
}
