use crate::fault::StateFault;
use thiserror::Error;

/// Why a mask or a pattern isn't read: the first fault from the left, and its place in the word, a number
/// of bytes from the word's start; or a refused allocation.
#[derive(Clone, Copy, Debug, PartialEq, Eq, Error)]
pub enum TermFault {
    /// A term, entry or value without text.
    #[error("term at {at}: empty")]
    Empty { at: u32 },
    /// A term or value that begins with `#` or `^` and is none of those that are known.
    #[error("term at {at}: unknown")]
    Unknown { at: u32 },
    /// A block state that isn't read. Its fault is never `Memory`.
    #[error("term at {at}: {fault}")]
    State { at: u32, fault: StateFault },
    /// A share of noise that is no number from 0 to 100.
    #[error("term at {at}: number")]
    Number { at: u32 },
    /// A weight that is no number from 1 to 1,000,000.
    #[error("term at {at}: weight")]
    Weight { at: u32 },
    /// A fifth share of noise.
    #[error("term at {at}: too many noise terms")]
    TooManyNoise { at: u32 },
    /// A thirty-third entry.
    #[error("term at {at}: too many entries")]
    TooManyEntries { at: u32 },
    /// An allocation was refused.
    #[error("memory")]
    Memory,
}
