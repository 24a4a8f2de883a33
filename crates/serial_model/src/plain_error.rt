//! Why a workload isn't run in an order.

ghost use Rattle.std.specs.Prelude.{◌≡◌};

use memory::Memory;
use std::alloc::{AllocError, AllocFailed};

/// Why a workload isn't run in an order.
#[derive(Clone, Copy, Debug, PartialEq, Eq)]
pub enum PlainError {
    /// The entry at this place is the first that makes the order illegal: it is no player's number, or its
    /// player has no command left.
    Illegal { at: u32 },
    /// An allocation was refused.
    Memory,
}

impl From<Memory> for PlainError {
    ghost use Rattle.serial_model.specs.declared.plain_error.PlainError.TheVariants as variants;

    ghost from_gives = { λ _ error. error ≡ variants.Memory };

    fn from(_error: Memory) -> PlainError {
        PlainError::Memory
    }
}

impl From<AllocError> for PlainError {
    ghost use Rattle.serial_model.specs.declared.plain_error.PlainError.TheVariants as variants;

    ghost from_gives = { λ _ error. error ≡ variants.Memory };

    fn from(_error: AllocError) -> PlainError {
        PlainError::Memory
    }
}

/// The value that found no room is dropped.
impl<T: Drop> From<AllocFailed<T>> for PlainError {
    ghost use Rattle.serial_model.specs.declared.plain_error.PlainError.TheVariants as variants;

    ghost from_gives = { λ _ error. error ≡ variants.Memory };

    fn from(_error: AllocFailed<T>) -> PlainError {
        PlainError::Memory
    }
}
