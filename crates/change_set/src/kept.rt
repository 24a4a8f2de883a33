//! The map of the changes that are kept.
ghost use Rattle.std.specs.Prelude.{◌≡◌, [], None, Some, OnOk, OnErr};
ghost use Rattle.std.specs.Option.{option_copied};
ghost use Rattle.change_set.specs.Kept.{kept_of, IsWith};

use crate::changes::Changes;
use edit_terms::Source;
use memory::Memory;
use std::alloc::Global;
use std::collections::BTreeMap;
use std::marker::Model;

/// The changes of commands, by the ids of the commands.
#[derive(Drop)]
pub struct Kept {
    changes: BTreeMap<(u32, u32), Changes>,
}

impl Model for Kept {
    ghost use Rattle.change_set.specs.Kept.{KeptChanges};

    ghost Value = { KeptChanges };

    ghost view = { λ k. k.changes.entries };
}

impl Kept {
    /// The map that keeps nothing. Takes no memory.
    pub fn new(alloc: Global) -> Kept
        ensures { result ≡ [] }
    {
        Kept {
            changes: BTreeMap::new(alloc),
        }
    }

    /// The changes of a command. None exactly where none are kept.
    pub fn get(&self, source: Source) -> Option<&Changes>
        ensures { option_copied result ≡ kept_of self.now source }
    {
        self.changes.get(&(source.player, source.step))
    }

    /// Keeps the changes of a command that has none yet; those of the others stay.
    ///
    /// After `Memory` the map is as it was, and the changes are dropped.
    pub fn put(&mut self, source: Source, changes: Changes) -> Result<(), Memory>
        requires { kept_of self.old source ≡ None }
        ensures kept { OnOk result (IsWith self.old self.new source (Some changes)) }
        ensures unchanged { OnErr result (self.new ≡ self.old) }
    {
        self.changes.insert((source.player, source.step), changes)?;
        Ok(())
    }

    /// Takes the changes of a command out; those of the others stay. None exactly where none are kept.
    /// Takes no memory.
    pub fn take(&mut self, source: Source) -> Option<Changes>
        ensures taken { result ≡ kept_of self.old source }
        ensures others { IsWith self.old self.new source None }
    {
        self.changes.remove(&(source.player, source.step))
    }
}
