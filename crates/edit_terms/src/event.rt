/// An event of a concurrent run: one of the steps that no other can come between.
#[derive(Clone, Copy, Debug, PartialEq, Eq)]
pub enum Event {
    /// The player's next command takes its ticket.
    Draw { player: u32 },
    /// A ticket's read job of a chunk captures the chunk's part of what the command copies.
    Read { ticket: u32, chunk: u32 },
    /// A ticket's write job of a chunk changes the chunk, or finds nothing to change.
    Write { ticket: u32, chunk: u32 },
}
