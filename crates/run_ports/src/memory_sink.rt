ghost use Rattle.std.specs.Prelude.{◌≡◌, ◌≤◌, ◌↔◌, [], ◌++◌, Some, IsErr, IfOk, OnOk, OnErr, IsTrue, vec_len, vec_capacity};
ghost use Rattle.run_ports.specs.Count.{count_after};
ghost use Rattle.run_ports.specs.Output.{IsLaterOutput, IsPartlyAppended};

use crate::fail_plan::{Fail, FailPlan};
use crate::output::Sink;
use crate::store::Failed;
use memory::Memory;
use std::alloc::Global;

/// An output in memory, of which contracts know what was written.
///
/// It has room for a number of bytes. A put that doesn't fit fails and takes nothing. Puts are counted
/// from 0, and its plan says which of them fail, and how many bytes each of these takes.
#[derive(Drop)]
pub struct MemorySink {
    written: Vec<u8>,
    room: usize,
    plan: FailPlan,
    faults: u64,
    ghost in_room: { vec_len written ≤ room },
    ghost room_is_there: { room ≤ vec_capacity written },
}

impl MemorySink {
    ghost use Rattle.run_ports.specs.MemorySink.{fails_of, room_of, calls_of};

    /// Room for `room` bytes, and the puts that are to fail. Where a put is named twice, its first entry
    /// counts.
    pub fn new(alloc: Global, room: u32, fails: Vec<Fail>) -> Result<MemorySink, Memory>
        ensures seen { IfOk result (λ sink. ⟦<MemorySink as Sink>⟧.seen sink ≡ record {
          written = Some [];
          faults = 0;
        }) }
        ensures room { IfOk result (λ sink. room_of sink ≡ room) }
        ensures fails { IfOk result (λ sink. fails_of sink ≡ fails.items) }
        ensures calls { IfOk result (λ sink. calls_of sink ≡ 0) }
    {
        let room = room as usize;
        Ok(MemorySink {
            written: Vec::with_capacity(alloc, room)?,
            room,
            plan: FailPlan::new(fails),
            faults: 0,
        })
    }

    /// What was written so far.
    pub fn written(&self) -> &[u8]
        ensures { (⟦<MemorySink as Sink>⟧.seen self.now).written ≡ Some result.now }
    {
        &self.written
    }
}

impl Sink for MemorySink {
    ghost use Rattle.run_ports.specs.MemorySink.{memory_output, written_of, fails_of, room_of, calls_of, faults_of, is_refused, kept_of};

    ghost seen = { memory_output };

    fn put(&mut self, bytes: &[u8]) -> Result<(), Failed>
        ensures refused { IsErr result ↔ IsTrue (is_refused self.old bytes.now) }

        // What the call leaves.
        ensures appended { OnOk result (written_of self.new ≡ written_of self.old ++ bytes.now) }
        ensures kept { OnErr result
            (written_of self.new ≡ written_of self.old ++ kept_of self.old bytes.now) }
        ensures partly { OnErr result (IsPartlyAppended
            (memory_output self.old).written (memory_output self.new).written bytes.now) }

        // What is counted, and what stays.
        ensures calls { calls_of self.new ≡ count_after (calls_of self.old) }
        ensures passed { OnOk result (faults_of self.new ≡ faults_of self.old) }
        ensures counted { OnErr result (faults_of self.new ≡ count_after (faults_of self.old)) }
        ensures later { IsLaterOutput (memory_output self.old) (memory_output self.new) }
        ensures room { room_of self.new ≡ room_of self.old }
        ensures fails { fails_of self.new ≡ fails_of self.old }
    {
        let planned = self.plan.next_call();
        if bytes.len() > self.room - self.written.len() {
            self.faults = self.faults.saturating_add(1);
            return Err(Failed);
        }
        let Some(fail) = planned else {
            self.written.extend_from_slice(bytes).unwrap();
            return Ok(());
        };
        self.faults = self.faults.saturating_add(1);
        self.written.extend_from_slice(fail.kept_of(bytes)).unwrap();
        Err(Failed)
    }
}
