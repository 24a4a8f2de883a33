//! The steps of a row of named tags: what comes next, and a name that no earlier tag of the row has.

ghost use Rattle.std.specs.Prelude.{◌≡◌, IfOk};
ghost use Rattle.nbt_tags.specs.Spelling.{also};
ghost use Rattle.nbt_tags.specs.Reading.{Gives, next_at, fresh_at};
ghost use Rattle.nbt_tags.specs.Taken.{is_taken};

use crate::ending::Ending;
use crate::fields::{kind_at, text_at};
use crate::flaw::{Cause, Failure, flaw_at};
use crate::kind::Kind;
use std::collections::BTreeSet;

/// The kind of the next named tag of a row, or its end.
#[tactic(auto, unfolding(crate::specs::Reading::next_at))]
pub fn next_at(ending: Ending, bytes: &[u8]) -> Result<(Option<Kind>, &[u8]), Failure>
    ensures { Gives (λ x. (x.0, x.1.now)) result (next_at ending bytes.now) }
{
    match (ending, bytes) {
        (Ending::Zero, []) => Err(flaw_at(Cause::Short, bytes)),
        (Ending::Input, []) => Ok((None, bytes)),
        (Ending::Zero, [0, rest @ ..]) => Ok((None, rest)),
        _ => {
            let (kind, rest) = kind_at(bytes)?;
            Ok((Some(kind), rest))
        }
    }
}

/// A name that is not taken, which is taken then. The tag's type byte is the first of the bytes.
#[tactic(auto, unfolding(crate::specs::Reading::fresh_at))]
pub fn fresh_at<'a>(
    names: &mut BTreeSet<&'a [u8]>,
    bytes: &'a [u8],
    rest: &'a [u8],
) -> Result<(&'a [u8], &'a [u8]), Failure>
    ensures gives { Gives (λ x. (x.0.now, x.1.now)) result
        (fresh_at (is_taken names.old) bytes.now rest.now) }
    ensures taken { IfOk result (λ x. is_taken names.new ≡ also x.0.now (is_taken names.old)) }
{
    let (name, rest) = text_at(rest)?;
    if !names.insert(name)? {
        return Err(flaw_at(Cause::Duplicate, bytes));
    }
    Ok((name, rest))
}
