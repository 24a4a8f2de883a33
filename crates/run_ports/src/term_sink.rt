ghost use Rattle.std.specs.Prelude.{◌≡◌, None, OnOk, OnErr};
ghost use Rattle.run_ports.specs.Count.{count_after};
ghost use Rattle.run_ports.specs.Output.{IsLaterOutput};

use crate::output::Sink;
use crate::store::Failed;
use std::io;
use std::io::Write;

/// The standard output. What was written isn't known to contracts.
#[derive(Drop)]
pub struct TermSink<R> {
    rt: R,
    faults: u64,
}

impl<R: Print + Drop> TermSink<R> {
    /// Over the standard output, as the runtime gives it.
    pub fn new(rt: R) -> TermSink<R>
        ensures { ⟦<TermSink<R> as Sink>⟧.seen result ≡ record { written = None; faults = 0 } }
    {
        TermSink { rt, faults: 0 }
    }

    /// How many puts failed.
    pub fn faults(&self) -> u64
        ensures { (⟦<TermSink<R> as Sink>⟧.seen self.now).faults ≡ result }
    {
        self.faults
    }
}

impl<R: Print + Drop> Sink for TermSink<R> {
    ghost use Rattle.run_ports.specs.TermSink.{terminal_output, faults_of};

    ghost seen = { terminal_output };

    fn put(&mut self, bytes: &[u8]) -> Result<(), Failed>
        ensures passed { OnOk result (faults_of self.new ≡ faults_of self.old) }
        ensures counted { OnErr result (faults_of self.new ≡ count_after (faults_of self.old)) }
        ensures later { IsLaterOutput (terminal_output self.old) (terminal_output self.new) }
    {
        if write_out(&self.rt, bytes).is_err() {
            self.faults = self.faults.saturating_add(1);
            return Err(Failed);
        }
        Ok(())
    }
}

/// Writes all of the bytes, and flushes.
fn write_out(rt: &impl Print, bytes: &[u8]) -> io::Result<()> {
    let mut out = io::writer(rt);
    out.write_all(bytes)?;
    out.flush()
}
