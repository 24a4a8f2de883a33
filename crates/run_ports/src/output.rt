ghost use Rattle.std.specs.Prelude.{OnOk, OnErr};
ghost use Rattle.run_ports.specs.Count.{Rose};
ghost use Rattle.run_ports.specs.Output.{OutputState, IsLaterOutput, IsAppended, IsPartlyAppended};

use crate::store::Failed;

/// An output of bytes. It counts its failures; the count stays at its last value once it is there.
pub trait Sink {
    /// What was written, where that is known, and its count.
    ghost seen: { Self → OutputState };

    /// Appends all of the bytes.
    fn put(&mut self, bytes: &[u8]) -> Result<(), Failed>
        ensures appended { OnOk result
            (IsAppended (seen self.old).written (seen self.new).written bytes.now) }
        ensures partly { OnErr result
            (IsPartlyAppended (seen self.old).written (seen self.new).written bytes.now) }
        ensures failed { OnErr result (Rose (seen self.old).faults (seen self.new).faults) }
        ensures later { IsLaterOutput (seen self.old) (seen self.new) };
}
