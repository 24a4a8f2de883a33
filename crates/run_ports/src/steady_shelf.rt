ghost use Rattle.std.specs.Prelude.{◌≡◌, ◌≢◌, ◌≤◌, ◌<◌, None, Err, IsSome, IsNone, IsOk, IfOk, IsErrOf, length};
ghost use Rattle.run_ports.specs.Count.{count_after};
ghost use Rattle.run_ports.specs.Store.{IsLater, with_file};
ghost use Rattle.run_ports.specs.StoreCounts.{no_counts, store_state};
ghost use Rattle.run_ports.specs.FileList.{listed, first_files};

use crate::file_list::{bytes_of, replace};
use crate::store::{Failed, LoadError, Shelf};
use std::alloc::Global;

/// A file store in memory that never fails, and whose files callers don't know.
///
/// The first entry of a name in its list is the file. A name that isn't in the list loads as an empty
/// file, and a save to it is dropped.
#[derive(Drop)]
pub struct SteadyShelf {
    files: Vec<(String, Vec<u8>)>,
    longs: u64,
}

impl SteadyShelf {
    ghost use Rattle.run_ports.specs.SteadyShelf.{files_of};

    /// The files, by name.
    pub fn new(files: Vec<(String, Vec<u8>)>) -> SteadyShelf
        ensures files { files_of result ≡ first_files (listed files.items) }
        ensures seen { ⟦<SteadyShelf as Shelf>⟧.seen result ≡ store_state None no_counts }
    {
        SteadyShelf { files, longs: 0 }
    }
}

impl Shelf for SteadyShelf {
    ghost use Rattle.run_ports.specs.SteadyShelf.{steady_store, files_of, longs_of, bytes_under};

    ghost seen = { steady_store };

    fn load(&mut self, alloc: Global, name: &str, limit: u64) -> Result<Vec<u8>, LoadError>
        ensures whole { IfOk result (λ bytes. bytes.items ≡ bytes_under self.old name.now) }
        ensures within { IfOk result (λ bytes. length bytes.items ≤ limit) }
        ensures never_fails { result ≢ Err LoadError.Failed }
        ensures long { IsErrOf result LoadError.TooLong → limit < length (bytes_under self.old name.now) }
        ensures long_counted { IsErrOf result LoadError.TooLong →
            longs_of self.new ≡ count_after (longs_of self.old) }
        ensures counted { ¬ IsErrOf result LoadError.TooLong → longs_of self.new ≡ longs_of self.old }
        ensures stays { files_of self.new ≡ files_of self.old }
        ensures later { IsLater (steady_store self.old) (steady_store self.new) }
    {
        let bytes = bytes_of(&self.files, name).unwrap_or(b"");
        if bytes.len() as u64 > limit {
            self.longs = self.longs.saturating_add(1);
            return Err(LoadError::TooLong);
        }
        bytes.to_vec(alloc).map_err(|_| LoadError::Memory)
    }

    fn save(&mut self, name: &str, bytes: Vec<u8>) -> Result<(), Failed>
        ensures ok { IsOk result }
        ensures listed { IsSome (files_of self.old name.now) →
            files_of self.new ≡ with_file name.now bytes.items (files_of self.old) }
        ensures dropped { IsNone (files_of self.old name.now) → files_of self.new ≡ files_of self.old }
        ensures longs { longs_of self.new ≡ longs_of self.old }
    {
        replace(&mut self.files, name, bytes);
        Ok(())
    }
}
