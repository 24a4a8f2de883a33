ghost use Rattle.std.specs.Prelude.{◌≡◌, ◌≤◌, ℕ, List, None, IfOk, length};
ghost use Rattle.run_ports.specs.Store.{IsLater};
ghost use Rattle.run_ports.specs.StoreCounts.{no_counts, store_state, counts_loaded, counts_saved};

use crate::store::{Failed, LoadError, Shelf};
use std::alloc::Global;
use std::fs::File;
use std::io::{ErrorKind, Read};
use std::rt::Files;
use std::{fs, io};

/// The files of the system, by their paths. What they hold isn't known to contracts.
///
/// One count of failures serves all names, loads and saves. A path that can't be opened, as an empty one
/// or one in a folder that isn't there, fails.
///
/// A load reads at most one byte more than its limit, so a device without an end takes no more memory
/// than a file that is too long.
#[derive(Drop)]
pub struct DiskShelf<R> {
    rt: R,
    faults: u64,
    longs: u64,
}

impl<R: Files + Drop> DiskShelf<R> {
    /// Over the system's files, as the runtime gives them.
    pub fn new(rt: R) -> DiskShelf<R>
        ensures { ⟦<DiskShelf<R> as Shelf>⟧.seen result ≡ store_state None no_counts }
    {
        DiskShelf {
            rt,
            faults: 0,
            longs: 0,
        }
    }

    /// How many loads and saves failed, under any name.
    pub fn faults(&self) -> u64
        ensures { (name : List ℕ) → (⟦<DiskShelf<R> as Shelf>⟧.seen self.now).faults name ≡ result }
    {
        self.faults
    }

    /// How many loads were of a file that was too long.
    pub fn longs(&self) -> u64
        ensures { (⟦<DiskShelf<R> as Shelf>⟧.seen self.now).longs ≡ result }
    {
        self.longs
    }
}

impl<R: Files + Drop> Shelf for DiskShelf<R> {
    ghost use Rattle.run_ports.specs.DiskShelf.{disk_store, counts_of};

    ghost seen = { disk_store };

    fn load(&mut self, alloc: Global, name: &str, limit: u64) -> Result<Vec<u8>, LoadError>
        ensures within { IfOk result (λ bytes. length bytes.items ≤ limit) }
        ensures counts { counts_of self.new ≡ counts_loaded result (counts_of self.old) }
        ensures later { IsLater (disk_store self.old) (disk_store self.new) }
    {
        match read_file(&self.rt, alloc, name, limit) {
            Err(LoadError::Failed) => {
                self.faults = self.faults.saturating_add(1);
                Err(LoadError::Failed)
            }
            Err(LoadError::TooLong) => {
                self.longs = self.longs.saturating_add(1);
                Err(LoadError::TooLong)
            }
            loaded => loaded,
        }
    }

    fn save(&mut self, name: &str, bytes: Vec<u8>) -> Result<(), Failed>
        ensures counts { counts_of self.new ≡ counts_saved result (counts_of self.old) }
        ensures later { IsLater (disk_store self.old) (disk_store self.new) }
    {
        if fs::write(&self.rt, name, bytes.as_slice()).is_err() {
            self.faults = self.faults.saturating_add(1);
            return Err(Failed);
        }
        Ok(())
    }
}

/// The whole file, of at most `limit` bytes.
fn read_file<R: Files>(rt: &R, alloc: Global, name: &str, limit: u64) -> Result<Vec<u8>, LoadError>
    ensures within { IfOk result (λ bytes. length bytes.items ≤ limit) }
{
    let bytes = read_some(rt, alloc, name, limit.saturating_add(1)).map_err(load_error)?;
    if bytes.len() as u64 > limit {
        return Err(LoadError::TooLong);
    }
    Ok(bytes)
}

/// The first `most` bytes of a file, or all of them where there are fewer.
fn read_some<R: Files>(rt: &R, alloc: Global, name: &str, most: u64) -> io::Result<Vec<u8>> {
    let mut bytes = Vec::new(alloc);
    File::open(rt, name)?.take(most).read_to_end(&mut bytes)?;
    Ok(bytes)
}

/// What an error of the system is for a load.
fn load_error(error: io::Error) -> LoadError {
    match error.kind() {
        ErrorKind::OutOfMemory => LoadError::Memory,
        _ => LoadError::Failed,
    }
}
