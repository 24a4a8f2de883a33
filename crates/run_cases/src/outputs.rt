//! Outputs by themselves: what each put answers, and what is written then.

use crate::runs::sink_of;
use crate::stores::push_between;
use case_lines::Answer;
use run_ports::{Gate, MemorySink, NullSink, OpenGate, Sink};
use std::alloc::Global;

/// An output `CALLS ; BYTES | BYTES ..`, where these calls fail.
pub fn answer(alloc: Global, input: &str, answer: &mut Answer) -> Option<()> {
    let (calls, puts) = input.split_once(" ; ")?;
    let mut sink = sink_of(alloc, calls)?;
    for bytes in puts.split(" | ") {
        push_between(answer);
        push_put(&mut sink, bytes, answer);
    }
    Some(())
}

fn push_put(sink: &mut MemorySink, bytes: &str, answer: &mut Answer) {
    let put = sink.put(bytes.as_bytes());
    answer.text(if put.is_ok() { "ok " } else { "failed " });
    answer.bytes(sink.written())
}

/// A put into an output that drops all, and a job behind a hook that does nothing.
pub fn answer_none(input: &str, answer: &mut Answer) {
    OpenGate.before(0, 1, 2);
    let put = NullSink::new().put(input.as_bytes());
    answer.text(if put.is_ok() { "ok" } else { "failed" })
}
