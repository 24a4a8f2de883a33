ghost use Rattle.std.specs.Prelude.{◌≡◌, None, IsOk};

use crate::output::Sink;
use crate::store::Failed;

/// An output that never fails, and drops what it is given.
#[derive(Clone, Copy, Debug, Default)]
pub struct NullSink;

impl NullSink {
    pub fn new() -> NullSink
        ensures { ⟦<NullSink as Sink>⟧.seen result ≡ record { written = None; faults = 0 } }
    {
        NullSink
    }
}

impl Sink for NullSink {
    ghost use Rattle.std.specs.Prelude.{None};

    ghost seen = { λ _. record { written = None; faults = 0 } };

    fn put(&mut self, _bytes: &[u8]) -> Result<(), Failed>
        ensures { IsOk result }
    {
        Ok(())
    }
}
