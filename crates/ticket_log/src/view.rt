use std::collections::LinkedList;

/// What a handle of the log knows: the order that it has seen, the orders that it and the handles which it
/// took in had seen before, and whether it draws. It exists in proofs alone; no value of it is made.
pub struct View {
    pub order: LinkedList<u32>,
    pub older: LinkedList<LinkedList<u32>>,
    pub draws: bool,
}
