ghost use Rattle.std.specs.Prelude.{◌≡◌, ◌≤◌, IfOk, OnOk, OnErr, IsErrOf, length};
ghost use Rattle.run_ports.specs.Count.{Rose};
ghost use Rattle.run_ports.specs.Store.{StoreState, IsLater, IsLoaded, IsTooLong, IsSaved, IsTorn};

use std::alloc::Global;

/// The outside refused a call.
#[derive(Clone, Copy, Debug, PartialEq, Eq)]
pub struct Failed;

/// Why a load gave no bytes.
#[derive(Clone, Copy, Debug, PartialEq, Eq)]
pub enum LoadError {
    /// The outside refused: there is no such file, or it can't be read.
    Failed,
    /// The file has more bytes than the caller allowed.
    TooLong,
    /// An allocation was refused.
    Memory,
}

/// A store of files under names.
///
/// It counts its failures by name, those of loads and those of saves apart, and the loads of files that
/// were too long. One counter may serve several names, or both kinds of calls. A count stays at its last
/// value once it is there.
pub trait Shelf {
    /// Its files, where they are known, and its counts.
    ghost seen: { Self → StoreState };

    /// The whole file of this name, of at most `limit` bytes.
    fn load(&mut self, alloc: Global, name: &str, limit: u64) -> Result<Vec<u8>, LoadError>
        ensures bytes { IfOk result (λ bytes. IsLoaded (seen self.old).files name.now bytes.items) }
        ensures within { IfOk result (λ bytes. length bytes.items ≤ limit) }

        // What each refusal says; `Memory` may always come.
        ensures failed { IsErrOf result LoadError.Failed →
            Rose ((seen self.old).faults name.now) ((seen self.new).faults name.now) }
        ensures too_long { IsErrOf result LoadError.TooLong →
            IsTooLong (seen self.old).files name.now limit }
        ensures long_counted { IsErrOf result LoadError.TooLong →
            Rose (seen self.old).longs (seen self.new).longs }
        ensures long_is_no_fault { IsErrOf result LoadError.TooLong →
            (seen self.new).faults name.now ≡ (seen self.old).faults name.now }

        // In every case.
        ensures stays { (seen self.new).files ≡ (seen self.old).files }
        ensures later { IsLater (seen self.old) (seen self.new) };

    /// Puts the bytes under this name, in place of what is there.
    fn save(&mut self, name: &str, bytes: Vec<u8>) -> Result<(), Failed>
        ensures saved { OnOk result
            (IsSaved (seen self.old).files (seen self.new).files name.now bytes.items) }
        ensures torn { OnErr result
            (IsTorn (seen self.old).files (seen self.new).files name.now bytes.items) }
        ensures failed { OnErr result
            (Rose ((seen self.old).save_faults name.now) ((seen self.new).save_faults name.now)) }
        ensures later { IsLater (seen self.old) (seen self.new) };
}
