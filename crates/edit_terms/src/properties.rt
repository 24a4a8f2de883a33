ghost use Rattle.std.specs.Prelude.{◌≡◌, ◌&&◌, ◌<◌, ◌≤◌, ◌+◌, true, false, MatchOption, IfOk, option_map, option_copied, List, length, nat_le, bytes_eq};
ghost use Rattle.std.specs.List.{list_all, find};
ghost use Rattle.edit_terms.specs.StateText.{is_word_byte, is_part, is_property_word, is_property, is_below_first, is_rising, is_properties, is_key_below, property_of};

use crate::block_name::is_word_byte;
use crate::items::Name;
use memory::Memory;
use std::alloc::Global;
use std::marker::Model;

/// The properties of a block state: at most 16 pairs of key and value, keys rising in byte order. Keys
/// and values are 1 to 64 bytes of a to z, 0 to 9 and `_`.
#[derive(Debug, Drop)]
pub struct Properties {
    pairs: Vec<(Name, Name)>,
}

impl Model for Properties {
    ghost use Rattle.std.specs.Prelude.{◌≡◌, List, ℕ, true};
    ghost use Rattle.edit_terms.specs.StateText.{is_properties};

    ghost Value = { List (List ℕ × List ℕ) };

    ghost view = { λ p. p.pairs.items };

    ghost invariant = { λ p. is_properties p.pairs.items ≡ true };
}

impl Properties {
    /// These properties. None exactly where there are more than 16 pairs, a key or value isn't of the
    /// form, or the keys don't strictly rise in byte order; the pairs are dropped then.
    pub fn from_pairs(pairs: Vec<(Name, Name)>) -> Option<Properties>
        ensures { MatchOption result (is_properties pairs.items ≡ false) (λ properties. properties ≡ pairs.items) }
    {
        if are_properties(&pairs) {
            Some(Properties { pairs })
        } else {
            None
        }
    }

    /// The pairs of key and value, by rising key.
    pub fn as_slice(&self) -> &[(Name, Name)]
        ensures { result.now ≡ self.now }
    {
        &self.pairs
    }

    /// Does nothing: the pairs are properties of the form.
    pub fn well_formed(&self)
        ensures { is_properties self.now ≡ true }
    {
        let _pairs = self.pairs.as_slice();
    }

    /// The same properties once more.
    pub fn copy(&self, alloc: Global) -> Result<Properties, Memory>
        ensures { IfOk result (λ copied. copied ≡ self.now) }
    {
        let pairs = copied(alloc, &self.pairs)?;
        Ok(Properties { pairs })
    }

    /// The value of a key. None exactly where the key isn't there.
    pub fn get(&self, key: &[u8]) -> Option<&[u8]>
        ensures { option_copied result ≡ property_of self.now key.now }
    {
        let pair = pair_of(&self.pairs, key)?;
        Some(pair.1.as_slice())
    }
}

fn copied(alloc: Global, pairs: &[(Name, Name)]) -> Result<Vec<(Name, Name)>, Memory>
    ensures { IfOk result (λ copied. copied.items ≡ pairs.now) }
{
    let mut copied = Vec::with_capacity(alloc, pairs.len())?;
    for pair in pairs {
        copied.push((pair.0.copy(alloc)?, pair.1.copy(alloc)?))?;
    }
    Ok(copied)
}

fn pair_of<'a>(pairs: &'a [(Name, Name)], key: &[u8]) -> Option<&'a (Name, Name)>
    ensures { option_copied result ≡ find (λ p. bytes_eq p.0 key.now) pairs.now }
{
    pairs.iter().find(|pair| pair.0.as_slice() == key)
}

fn are_properties(pairs: &[(Name, Name)]) -> bool
    ensures { result ≡ is_properties pairs.now }
{
    pairs.len() <= 16 && are_words(pairs) && is_rising(pairs)
}

fn are_words(pairs: &[(Name, Name)]) -> bool
    ensures { result ≡ list_all is_property pairs.now }
{
    pairs.iter().all(|pair| is_property(pair))
}

fn is_property(pair: &(Name, Name)) -> bool
    ensures { result ≡ is_property pair.now }
{
    is_property_word(pair.0.as_slice()) && is_property_word(pair.1.as_slice())
}

/// Whether the bytes are a property's key or value: 1 to 64 of a to z, 0 to 9 and `_`.
pub fn is_property_word(bytes: &[u8]) -> bool
    ensures { result ≡ is_property_word bytes.now }
{
    bytes.len() <= 64 && is_word(bytes)
}

fn is_word(bytes: &[u8]) -> bool
    ensures { result ≡ is_part is_word_byte bytes.now }
{
    !bytes.is_empty() && are_word_bytes(bytes)
}

fn are_word_bytes(bytes: &[u8]) -> bool
    ensures { result ≡ list_all is_word_byte bytes.now }
{
    bytes.iter().all(|b| is_word_byte(*b))
}

fn is_rising(pairs: &[(Name, Name)]) -> bool
    ensures { result ≡ is_rising pairs.now }
{
    match pairs {
        [] => true,
        [first, rest @ ..] => is_below_first(first, rest) && is_rising(rest),
    }
}

fn is_below_first(pair: &(Name, Name), pairs: &[(Name, Name)]) -> bool
    ensures { result ≡ is_below_first pair.now pairs.now }
{
    match pairs {
        [] => true,
        [first, ..] => is_key_below(pair, first),
    }
}

fn is_key_below(first: &(Name, Name), second: &(Name, Name)) -> bool
    ensures { result ≡ is_key_below first.now second.now }
{
    first.0.as_slice().cmp(second.0.as_slice()).is_lt()
}
