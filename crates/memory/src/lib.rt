//! Want of memory, as one error that every crate of the project shares.
//!
//! An allocation may be refused at any time, so a call that takes memory answers `Memory` where one
//! was. No contract ties that answer to a refused allocation: it may come from each such call. It has
//! one value, so nothing is lost when std's own errors become it.
#![tactic(auto)]

use std::alloc::{AllocError, AllocFailed};

/// An allocation was refused.
#[derive(Clone, Copy, Debug, PartialEq, Eq)]
pub struct Memory;

impl From<AllocError> for Memory {
    fn from(_error: AllocError) -> Memory {
        Memory
    }
}

/// The value that found no room is dropped.
impl<T: Drop> From<AllocFailed<T>> for Memory {
    fn from(_error: AllocFailed<T>) -> Memory {
        Memory
    }
}
