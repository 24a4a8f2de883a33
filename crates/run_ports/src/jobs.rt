/// A hook that a run calls directly before each job, while it holds the lock of the job's chunk.
pub trait Gate {
    /// `worker` is about to run the job of this ticket on this chunk.
    fn before(&self, worker: u32, ticket: u32, chunk: u32);
}

/// A hook that does nothing.
#[derive(Clone, Copy, Debug, Default)]
pub struct OpenGate;

impl Gate for OpenGate {
    fn before(&self, _worker: u32, _ticket: u32, _chunk: u32) {}
}
