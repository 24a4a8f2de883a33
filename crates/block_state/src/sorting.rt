//! Properties by rising key.
ghost use Rattle.std.specs.Prelude.{◌≡◌, bytes_eq, position, IfOk, OnOk};
ghost use Rattle.std.specs.Ordering.{nat_cmp, is_le};
ghost use Rattle.std.specs.Cmp.Lexicographic.{slice_cmp};
ghost use Rattle.edit_terms.specs.StateText.{put_property, with_properties};

use edit_terms::Name;
use memory::Memory;

/// The old properties, by rising key, with the listed ones replaced or added. Of two listed ones with one
/// key the earlier one counts.
pub(crate) fn with_properties(
    old: Vec<(Name, Name)>,
    listed: Vec<(Name, Name)>,
) -> Result<Vec<(Name, Name)>, Memory>
    ensures { IfOk result (λ all. all.items ≡ with_properties old.items listed.items) }
{
    let mut all = old;
    let mut left = listed;
    while let Some(pair) = left.pop() {
        put_property(&mut all, pair)?;
    }
    Ok(all)
}

/// The property comes to its place by key; a key that is there gets the new value.
fn put_property(pairs: &mut Vec<(Name, Name)>, pair: (Name, Name)) -> Result<(), Memory>
    ensures { OnOk result (pairs.new.items ≡ put_property pair pairs.old.items) }
{
    let Some(place) = place_of(pairs, &pair) else {
        pairs.push(pair)?;
        return Ok(());
    };
    if has_one_key(&pair, &pairs[place]) {
        pairs[place] = pair;
        return Ok(());
    }
    pairs.insert(place, pair)?;
    Ok(())
}

/// The place of the first property whose key isn't below that of this one.
fn place_of(pairs: &[(Name, Name)], pair: &(Name, Name)) -> Option<usize>
    ensures { result ≡ position (λ p. is_le (slice_cmp nat_cmp pair.now.0 p.0)) pairs.now }
{
    pairs
        .iter()
        .position(|other| pair.0.as_slice().cmp(other.0.as_slice()).is_le())
}

fn has_one_key(first: &(Name, Name), second: &(Name, Name)) -> bool
    ensures { result ≡ bytes_eq first.now.0 second.now.0 }
{
    first.0.as_slice() == second.0.as_slice()
}
