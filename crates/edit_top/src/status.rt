//! How a call of the program ends.

ghost use Rattle.std.specs.Prelude.{◌≡◌};
ghost use Rattle.edit_top.specs.declared.status.Status.TheVariants as statuses;

use command_syntax::ScriptFault;
use memory::Memory;
use sponge_schematic::WorldFault;
use std::alloc::AllocFailed;

/// How a call of the program ended. File 0 is the world, and scripts count from 1.
#[derive(Debug, Drop)]
pub enum Status {
    /// The world is saved and the whole text is put.
    Done,
    /// The words aren't of the form.
    Usage,
    /// A file can't be read.
    ReadFault { file: u32 },
    /// A file has more bytes than its limit.
    TooLong { file: u32 },
    /// The world's file is refused.
    WorldRefused { fault: WorldFault },
    /// A script is refused.
    ScriptRefused { script: u32, fault: ScriptFault },
    /// A script's player stands in an earlier script.
    DuplicatePlayer { script: u32 },
    /// The commands read and write chunks more often than a run may.
    TooManyJobs { jobs: u64 },
    /// The world can't be saved.
    SaveFault,
    /// The text can't be put.
    PrintFault,
    /// An allocation was refused.
    OutOfMemory,
}

impl Status {
    ghost use Rattle.edit_top.specs.Status.{code_of};

    /// The exit status of the program.
    pub fn code(&self) -> u8
        ensures { result ≡ code_of self.now }
    {
        match self {
            Status::Done => 0,
            Status::Usage => 2,
            Status::ReadFault { .. } => 3,
            Status::TooLong { .. } => 4,
            Status::WorldRefused { .. } => 5,
            Status::ScriptRefused { .. } => 6,
            Status::DuplicatePlayer { .. } => 7,
            Status::TooManyJobs { .. } => 8,
            Status::SaveFault => 9,
            Status::PrintFault => 10,
            Status::OutOfMemory => 11,
        }
    }
}

impl From<Memory> for Status {
    ghost from_gives = { λ _ status. status ≡ statuses.OutOfMemory };

    fn from(_error: Memory) -> Status {
        Status::OutOfMemory
    }
}

/// The value that found no room is dropped.
impl<T: Drop> From<AllocFailed<T>> for Status {
    ghost from_gives = { λ _ status. status ≡ statuses.OutOfMemory };

    fn from(_error: AllocFailed<T>) -> Status {
        Status::OutOfMemory
    }
}
