//! Drills.

use crate::endings::push_ending;
use crate::runs::sink_of;
use crate::words::words_of;
use case_lines::Answer;
use edit_top::drill;
use run_ports::OpenGate;
use std::alloc::Global;
use std::sync::Wait;
use std::thread::Threads;

/// A drill `WORDS` or `WORDS ; CALLS`, where these calls fail.
pub fn answer<R: Threads + Wait + Sync>(
    rt: &R,
    alloc: Global,
    input: &str,
    answer: &mut Answer,
) -> Option<()> {
    let (words, calls) = input.split_once(" ; ").unwrap_or((input, ""));
    let words = words_of(alloc, words, "")?;
    let mut sink = sink_of(alloc, calls)?;
    let status = drill(rt, alloc, &words, &mut sink, &OpenGate);
    push_ending(&status, sink.written(), answer);
    Some(())
}
