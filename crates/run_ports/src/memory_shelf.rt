ghost use Rattle.std.specs.Prelude.{◌≡◌, ◌≤◌, ◌<◌, ◌↔◌, Some, IsSome, IsSomeAnd, IsNone, IsErr, IfOk, OnOk, OnErr, IsErrOf, IsTrue, length};
ghost use Rattle.std.specs.Option.{option_copied, option_and_then};
ghost use Rattle.run_ports.specs.Count.{count_after};
ghost use Rattle.run_ports.specs.StoreCounts.{no_counts, store_state, counts_loaded, counts_saved};
ghost use Rattle.run_ports.specs.Store.{IsLater, IsTorn, with_file};
ghost use Rattle.run_ports.specs.FileList.{listed, first_files};

use crate::fail_plan::{Fail, FailPlan};
use crate::file_list::{bytes_of, is_listed, replace};
use crate::store::{Failed, LoadError, Shelf};
use std::alloc::Global;

/// A file store in memory, whose files contracts know.
///
/// The first entry of a name in its list is the file, and later ones play no role. A load or save of a
/// name that isn't in the list fails. Loads and saves are counted together, as calls from 0, and its
/// plan says which of these calls fail. One count of failures serves all names, loads and saves.
#[derive(Drop)]
pub struct MemoryShelf {
    files: Vec<(String, Vec<u8>)>,
    plan: FailPlan,
    faults: u64,
    longs: u64,
}

impl MemoryShelf {
    ghost use Rattle.run_ports.specs.MemoryShelf.{fails_of, calls_of};

    /// The files, by name, and the calls that are to fail. Where a call is named twice, its first entry
    /// counts.
    pub fn new(files: Vec<(String, Vec<u8>)>, fails: Vec<Fail>) -> MemoryShelf
        ensures seen { ⟦<MemoryShelf as Shelf>⟧.seen result ≡
            store_state (Some (first_files (listed files.items))) no_counts }
        ensures fails { fails_of result ≡ fails.items }
        ensures calls { calls_of result ≡ 0 }
    {
        MemoryShelf {
            files,
            plan: FailPlan::new(fails),
            faults: 0,
            longs: 0,
        }
    }

    /// The bytes of a file, for a look at what a run left.
    pub fn file(&self, name: &str) -> Option<&[u8]>
        ensures { option_copied result ≡
            option_and_then (λ files. files name.now) (⟦<MemoryShelf as Shelf>⟧.seen self.now).files }
    {
        bytes_of(&self.files, name)
    }
}

impl Shelf for MemoryShelf {
    ghost use Rattle.run_ports.specs.MemoryShelf.{memory_store, files_of, fails_of, calls_of, counts_of, next_fail, is_refused, files_kept};

    ghost seen = { memory_store };

    fn load(&mut self, alloc: Global, name: &str, limit: u64) -> Result<Vec<u8>, LoadError>
        ensures whole { IfOk result (λ bytes. files_of self.old name.now ≡ Some bytes.items) }
        ensures within { IfOk result (λ bytes. length bytes.items ≤ limit) }

        // When each refusal comes.
        ensures refused { IsErrOf result LoadError.Failed ↔ IsTrue (is_refused self.old name.now) }
        ensures long { IsErrOf result LoadError.TooLong →
            IsSomeAnd (files_of self.old name.now) (λ bytes. limit < length bytes) }

        // What is counted, and what stays.
        ensures calls { calls_of self.new ≡ count_after (calls_of self.old) }
        ensures counts { counts_of self.new ≡ counts_loaded result (counts_of self.old) }
        ensures later { IsLater (memory_store self.old) (memory_store self.new) }
        ensures stays { files_of self.new ≡ files_of self.old }
        ensures fails { fails_of self.new ≡ fails_of self.old }
    {
        let planned = self.plan.next_call();
        let (Some(bytes), None) = (bytes_of(&self.files, name), planned) else {
            self.faults = self.faults.saturating_add(1);
            return Err(LoadError::Failed);
        };
        if bytes.len() as u64 > limit {
            self.longs = self.longs.saturating_add(1);
            return Err(LoadError::TooLong);
        }
        bytes.to_vec(alloc).map_err(|_| LoadError::Memory)
    }

    fn save(&mut self, name: &str, bytes: Vec<u8>) -> Result<(), Failed>
        ensures refused { IsErr result ↔ IsTrue (is_refused self.old name.now) }

        // What the call leaves.
        ensures saved { OnOk result (files_of self.new ≡ with_file name.now bytes.items (files_of self.old)) }
        ensures unlisted { IsNone (files_of self.old name.now) → files_of self.new ≡ files_of self.old }
        ensures kept { IsSome (files_of self.old name.now) → OnErr result (files_of self.new ≡
            files_kept (next_fail self.old) name.now bytes.items (files_of self.old)) }
        ensures torn { OnErr result (IsTorn (memory_store self.old).files
            (memory_store self.new).files name.now bytes.items) }

        // What is counted.
        ensures calls { calls_of self.new ≡ count_after (calls_of self.old) }
        ensures counts { counts_of self.new ≡ counts_saved result (counts_of self.old) }
        ensures later { IsLater (memory_store self.old) (memory_store self.new) }
        ensures fails { fails_of self.new ≡ fails_of self.old }
    {
        let planned = self.plan.next_call();
        if !is_listed(&self.files, name) {
            self.faults = self.faults.saturating_add(1);
            return Err(Failed);
        }
        let Some(fail) = planned else {
            replace(&mut self.files, name, bytes);
            return Ok(());
        };
        self.faults = self.faults.saturating_add(1);
        if let Some(kept) = fail.kept {
            let mut part = bytes;
            part.truncate(kept as usize);
            replace(&mut self.files, name, part);
        }
        Err(Failed)
    }
}
