//! What is wrong with bytes, told by how many of them are left.

ghost use Rattle.std.specs.Prelude.{◌≡◌, length};
ghost use Rattle.nbt_tags.specs.declared.flaw.Failure.TheVariants.{Memory};

use std::alloc::{AllocError, AllocFailed};

/// The six causes of a fault in the bytes.
#[derive(Clone, Copy, Debug, PartialEq, Eq)]
pub enum Cause {
    Short,
    BadType,
    BadCount,
    Duplicate,
    Deep,
    Trailing,
}

/// A cause, and the number of bytes from the place of the fault to the end of the input.
#[derive(Clone, Copy, Debug, PartialEq, Eq)]
pub struct Flaw {
    pub cause: Cause,
    pub left: usize,
}

/// Why a reader gave nothing.
#[derive(Debug, Drop)]
pub enum Failure {
    Memory,
    Flaw(Flaw),
}

impl From<AllocError> for Failure {
    ghost from_gives = { λ _ e. e ≡ Memory };

    fn from(_error: AllocError) -> Failure {
        Failure::Memory
    }
}

impl<T: Drop> From<AllocFailed<T>> for Failure {
    ghost from_gives = { λ _ e. e ≡ Memory };

    fn from(_error: AllocFailed<T>) -> Failure {
        Failure::Memory
    }
}

/// A fault at the first of the bytes `rest`.
pub fn flaw_at(cause: Cause, rest: &[u8]) -> Failure
    ensures { result ≡ Failure.Flaw (record { cause = cause; left = length rest.now }) }
{
    Failure::Flaw(Flaw {
        cause,
        left: rest.len(),
    })
}
