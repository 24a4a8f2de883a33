//! Why a script isn't read.
ghost use Rattle.std.specs.Prelude.{◌≡◌};
ghost use Rattle.command_syntax.specs.declared.fault.ScriptFault.TheVariants as faults;

use block_state::TermFault;
use memory::Memory;
use std::alloc::{AllocError, AllocFailed};
use thiserror::Error;

/// Why a line isn't read as a command: the first of its faults. An open quote comes first, then the command,
/// then how many words follow it, then each word from the left.
#[derive(Debug, Drop, Error)]
pub enum LineFault {
    /// A quote has no end.
    #[error("open quote")]
    OpenQuote,
    /// The first word is no command.
    #[error("unknown command")]
    UnknownCommand,
    /// Fewer words follow than the command needs.
    #[error("missing word")]
    MissingWord,
    /// More words follow than the command takes.
    #[error("extra word")]
    ExtraWord,
    /// A word is no number, or no three numbers with commas between.
    #[error("bad number")]
    BadNumber,
    /// A number is outside its limits, or no angle of 90, 180 or 270 degrees.
    #[error("out of limit")]
    OutOfLimit,
    /// A word is no direction.
    #[error("bad direction")]
    BadDirection,
    /// A word is no shape of a selection, or no option.
    #[error("bad option")]
    BadOption,
    /// A word isn't read as a mask, a pattern or a state. The fault is never `Memory`, nor that of a state.
    #[error("{0}")]
    Term(TermFault),
}

/// Why a script isn't read: its first fault, or a refused allocation.
#[derive(Debug, Drop, Error)]
pub enum ScriptFault {
    /// A byte isn't ASCII: the first such byte, by its place in the file. It comes before all else.
    #[error("byte {byte} is not ascii")]
    NotAscii { byte: u32 },
    /// The first line that isn't skipped doesn't begin with the word `player`, or there is none.
    #[error("no player")]
    NoPlayer,
    /// There isn't one name behind `player`, or it isn't 1 to 16 bytes out of A to Z, a to z, 0 to 9 and `_`; or a
    /// quote of that line has no end.
    #[error("bad player")]
    BadPlayer,
    /// There is a 10,001st command.
    #[error("too many commands")]
    TooManyLines,
    /// The line of this number, from 1, isn't read.
    #[error("line {line}: {fault}")]
    Line { line: u32, fault: LineFault },
    /// An allocation was refused.
    #[error("memory")]
    Memory,
}

impl From<Memory> for ScriptFault {
    ghost from_gives = { λ _ fault. fault ≡ faults.Memory };

    fn from(_error: Memory) -> ScriptFault {
        ScriptFault::Memory
    }
}

impl From<AllocError> for ScriptFault {
    ghost from_gives = { λ _ fault. fault ≡ faults.Memory };

    fn from(_error: AllocError) -> ScriptFault {
        ScriptFault::Memory
    }
}

/// The value that found no room is dropped.
impl<T: Drop> From<AllocFailed<T>> for ScriptFault {
    ghost from_gives = { λ _ fault. fault ≡ faults.Memory };

    fn from(_error: AllocFailed<T>) -> ScriptFault {
        ScriptFault::Memory
    }
}
