//! How much room is taken for what a count announces.

ghost use Rattle.std.specs.Prelude.{◌≡◌, [], IfOk};
ghost use Rattle.nbt_tags.specs.Room.{room_for};

use std::alloc::{AllocError, Global};

/// For how many items room is taken: none for a negative count, else the smaller of the count and the
/// number of bytes that are left. So a false count takes no more items' room than the input has bytes.
pub fn room_for(count: i32, left: u32) -> u32
    ensures { result ≡ room_for count left }
{
    if count < 0 {
        return 0;
    }
    left.min(count as u32)
}

/// An empty list with room for `count` items, where so many bytes are left.
pub(crate) fn with_room<T>(alloc: Global, count: usize, left: usize) -> Result<Vec<T>, AllocError>
    ensures { IfOk result (λ items. items.items ≡ []) }
{
    let count = i32::try_from(count).unwrap_or(i32::MAX);
    let left = u32::try_from(left).unwrap_or(u32::MAX);
    Vec::with_capacity(alloc, room_for(count, left) as usize)
}
