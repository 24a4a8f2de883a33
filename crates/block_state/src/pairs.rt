//! Properties in lists.
ghost use Rattle.std.specs.Prelude.{◌≡◌, bytes_eq, IfOk};
ghost use Rattle.std.specs.List.{list_any};
ghost use Rattle.edit_terms.specs.StateText.{has_key};

use edit_terms::Name;
use memory::Memory;
use std::alloc::Global;

/// Whether one of the properties has the key.
pub(crate) fn has_key(pairs: &[(Name, Name)], key: &[u8]) -> bool
    ensures { result ≡ has_key pairs.now key.now }
{
    pairs.iter().any(|pair| pair.0.as_slice() == key)
}

/// A name of these bytes.
pub(crate) fn name_of(alloc: Global, bytes: &[u8]) -> Result<Name, Memory>
    ensures { IfOk result (λ name. name ≡ bytes.now) }
{
    Ok(Name::from_vec(Vec::from_slice(alloc, bytes)?))
}

/// The same properties once more.
pub(crate) fn copied(alloc: Global, pairs: &[(Name, Name)]) -> Result<Vec<(Name, Name)>, Memory>
    ensures { IfOk result (λ copied. copied.items ≡ pairs.now) }
{
    let mut copied = Vec::with_capacity(alloc, pairs.len())?;
    for pair in pairs {
        copied.push((pair.0.copy(alloc)?, pair.1.copy(alloc)?))?;
    }
    Ok(copied)
}
