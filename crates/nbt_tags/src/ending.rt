//! How a row of named tags ends.

/// What follows the last named tag of a row.
#[derive(Clone, Copy, Debug, PartialEq, Eq)]
pub enum Ending {
    /// A byte 0, as in a compound.
    Zero,
    /// The end of the input.
    Input,
}
