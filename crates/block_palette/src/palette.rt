//! The palette.
ghost use Rattle.std.specs.Prelude.{◌≡◌, ◌-◌, ◌+◌, ◌^◌, ◌<◌, ◌≤◌, ◌↔◌, [], length, take, is_some, slice_get, option_copied, position, IsTrue, IsSome, IfSome, IfOk, OnOk, OnErr};
ghost use Rattle.std.specs.List.{list_any, IsDistinct};
ghost use Rattle.block_palette.specs.Numbering.{number_in, with_entry, IsNumberOf};

use crate::Memory;
use indexmap::IndexSet;
use std::alloc::Global;
use std::hash::{BuildHasherDefault, FoldHasher, Hash};
use std::marker::Model;

/// A list of distinct entries, numbered from 0 in the order in which they were first seen.
///
/// Entries are told apart by their `==`. A palette has at most 2^32 - 1 of them.
#[derive(Drop)]
pub struct Palette<S: Eq + Hash> {
    entries: IndexSet<S, BuildHasherDefault<FoldHasher>, Global>,
}

impl<S: Eq + Hash> Model for Palette<S> {
    ghost use Rattle.std.specs.Prelude.{List};

    ghost Value = { List S };

    ghost use Rattle.block_palette.specs.Numbering.{IsPalette};

    ghost view = { λ palette. palette.entries.keys };

    ghost invariant = { λ palette. IsPalette S.eq palette.entries.keys };
}

impl<S: Eq + Hash + Drop> Palette<S> {
    /// A palette without entries. It takes no memory before its first entry.
    pub fn new(alloc: Global) -> Palette<S>
        ensures empty { result ≡ [] }
    {
        Palette {
            entries: IndexSet::new(alloc),
        }
    }

    /// The number of an entry, which goes last where no equal one is there yet.
    ///
    /// After `Memory` the palette is as it was, and the entry is dropped.
    pub fn number(&mut self, entry: S) -> Result<u32, Memory>
        requires { length self.old < 2 ^ 32 - 1 }
        ensures number { IfOk result (λ n. n ≡ number_in S.eq self.old entry) }
        ensures entries { OnOk result (self.new ≡ with_entry S.eq self.old entry) }
        ensures named { IfOk result (IsNumberOf S.eq self.new entry) }
        ensures kept { take (length self.old) self.new ≡ self.old }
        ensures grows { length self.new ≤ length self.old + 1 }
        ensures unchanged { OnErr result (self.new ≡ self.old) }
        ensures distinct { IsDistinct S.eq self.new }
    {
        let (number, _is_new) = self.entries.insert_full(entry)?;
        Ok(number as u32)
    }

    /// The entry of a number, or `None` past the end.
    pub fn entry(&self, number: u32) -> Option<&S>
        ensures entry { option_copied result ≡ slice_get self.now number }
        ensures there { IsSome result ↔ (number < length self.now) }
        ensures distinct { IsDistinct S.eq self.now }
    {
        self.entries.get_index(number as usize)
    }

    /// The number of the entry that equals `entry`, or `None` where no entry does.
    #[tactic(auto, using(crate::proofs::Numbering::number_from_position))]
    pub fn find(&self, entry: &S) -> Option<u32>
        ensures number { result ≡ position (S.eq entry.now) self.now }
        ensures there { is_some result ≡ list_any (S.eq entry.now) self.now }
        ensures named { IfSome result (IsNumberOf S.eq self.now entry.now) }
        ensures distinct { IsDistinct S.eq self.now }
    {
        match self.entries.get_index_of(entry) {
            Some(number) => Some(number as u32),
            None => None,
        }
    }

    /// How many entries there are.
    pub fn len(&self) -> u32
        ensures len { result ≡ length self.now }
        ensures distinct { IsDistinct S.eq self.now }
    {
        self.entries.len() as u32
    }

    /// Whether there are no entries.
    pub fn is_empty(&self) -> bool
        ensures empty { IsTrue result ↔ (self.now ≡ []) }
        ensures distinct { IsDistinct S.eq self.now }
    {
        self.len() == 0
    }
}
