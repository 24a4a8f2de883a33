ghost use Rattle.std.specs.Prelude.{◌≡◌};
ghost use Rattle.block_state.specs.declared.fault.StateFault.TheVariants as faults;

use memory::Memory;
use std::alloc::{AllocError, AllocFailed};
use thiserror::Error;

/// Why a text is read as no block state: its first fault, the name's before the properties' from left to
/// right, or a refused allocation.
#[derive(Clone, Copy, Debug, PartialEq, Eq, Error)]
pub enum StateFault {
    /// What stands before the first `[` is no block's name, or with its namespace it has more than 256
    /// bytes.
    #[error("bad name")]
    BadName,
    /// The brackets don't enclose the rest of the text, or a property isn't `key=value` with 1 to 64 bytes
    /// each out of a to z, 0 to 9 and `_`.
    #[error("bad property")]
    BadProperty,
    /// A key stands for the second time.
    #[error("repeated key")]
    RepeatedKey,
    /// A seventeenth property.
    #[error("too many properties")]
    TooManyProperties,
    /// An allocation was refused.
    #[error("memory")]
    Memory,
}

impl From<Memory> for StateFault {
    ghost from_gives = { λ _ fault. fault ≡ faults.Memory };

    fn from(_error: Memory) -> StateFault {
        StateFault::Memory
    }
}

impl From<AllocError> for StateFault {
    ghost from_gives = { λ _ fault. fault ≡ faults.Memory };

    fn from(_error: AllocError) -> StateFault {
        StateFault::Memory
    }
}

/// The value that found no room is dropped.
impl<T: Drop> From<AllocFailed<T>> for StateFault {
    ghost from_gives = { λ _ fault. fault ≡ faults.Memory };

    fn from(_error: AllocFailed<T>) -> StateFault {
        StateFault::Memory
    }
}
