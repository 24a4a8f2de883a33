ghost use Rattle.std.specs.Prelude.{◌≡◌, ◌&&◌, true, false, MatchOption, IfOk, position, Option};
ghost use Rattle.std.specs.List.{list_all};
ghost use Rattle.edit_terms.specs.StateText.{is_word_byte, is_namespace_byte, is_path_byte, is_colon, is_part, is_split_at, is_block_name};

use crate::items::Name;
use memory::Memory;
use std::alloc::Global;
use std::marker::Model;

/// The name of a kind of block, with its namespace, as `minecraft:oak_stairs`.
#[derive(Debug, Drop)]
pub struct BlockName {
    name: Name,
}

impl Model for BlockName {
    ghost use Rattle.std.specs.Prelude.{◌≡◌, List, ℕ, true};
    ghost use Rattle.edit_terms.specs.StateText.{is_block_name};

    ghost Value = { List ℕ };

    ghost view = { λ n. n.name };

    ghost invariant = { λ n. is_block_name n.name ≡ true };
}

impl BlockName {
    /// The name of these bytes: a namespace of the bytes a to z, 0 to 9, `_`, `.` and `-`, a colon, and
    /// a path that may also have `/`, neither of them empty, at most 256 bytes together. None exactly
    /// where they aren't such a name; they are dropped then. Takes no memory.
    pub fn from_name(name: Name) -> Option<BlockName>
        ensures { MatchOption result (is_block_name name ≡ false) (λ block. block ≡ name) }
    {
        if is_block_name(name.as_slice()) {
            Some(BlockName { name })
        } else {
            None
        }
    }

    /// The bytes of the name.
    pub fn as_slice(&self) -> &[u8]
        ensures { result.now ≡ self.now }
    {
        self.name.as_slice()
    }

    /// Does nothing: the bytes are a name of the form.
    pub fn well_formed(&self)
        ensures { is_block_name self.now ≡ true }
    {
        let _bytes = self.name.as_slice();
    }

    /// A second name of the same bytes.
    pub fn copy(&self, alloc: Global) -> Result<BlockName, Memory>
        ensures { IfOk result (λ copied. copied ≡ self.now) }
    {
        Ok(BlockName {
            name: self.name.copy(alloc)?,
        })
    }
}

fn is_block_name(bytes: &[u8]) -> bool
    ensures { result ≡ is_block_name bytes.now }
{
    bytes.len() <= 256 && is_split_at(bytes, colon_of(bytes))
}

fn colon_of(bytes: &[u8]) -> Option<usize>
    ensures { result ≡ position is_colon bytes.now }
{
    bytes.iter().position(|b| *b == b':')
}

fn is_split_at(bytes: &[u8], colon: Option<usize>) -> bool
    requires { colon ≡ position is_colon bytes.now }
    ensures { result ≡ is_split_at bytes.now colon }
{
    match colon {
        None => false,
        Some(colon) => is_namespace(&bytes[..colon]) && is_path(&bytes[colon + 1..]),
    }
}

fn is_namespace(bytes: &[u8]) -> bool
    ensures { result ≡ is_part is_namespace_byte bytes.now }
{
    !bytes.is_empty() && are_namespace_bytes(bytes)
}

fn is_path(bytes: &[u8]) -> bool
    ensures { result ≡ is_part is_path_byte bytes.now }
{
    !bytes.is_empty() && are_path_bytes(bytes)
}

fn are_namespace_bytes(bytes: &[u8]) -> bool
    ensures { result ≡ list_all is_namespace_byte bytes.now }
{
    bytes.iter().all(|b| is_namespace_byte(*b))
}

fn are_path_bytes(bytes: &[u8]) -> bool
    ensures { result ≡ list_all is_path_byte bytes.now }
{
    bytes.iter().all(|b| is_path_byte(*b))
}

pub(crate) fn is_word_byte(b: u8) -> bool
    ensures { result ≡ is_word_byte b }
{
    matches!(b, b'a'..=b'z' | b'0'..=b'9' | b'_')
}

fn is_namespace_byte(b: u8) -> bool
    ensures { result ≡ is_namespace_byte b }
{
    is_word_byte(b) || b == b'.' || b == b'-'
}

fn is_path_byte(b: u8) -> bool
    ensures { result ≡ is_path_byte b }
{
    is_namespace_byte(b) || b == b'/'
}
