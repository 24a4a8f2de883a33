//! The call that runs a workload made from a number.

ghost use Rattle.std.specs.Prelude.{◌≡◌, map, string_bytes, IfOk};
ghost use Rattle.run_ports.specs.Count.{Rose};
ghost use Rattle.edit_top.specs.Ends.{IsDoneOrMemory, IsNoFailure, IsPrinted};
ghost use Rattle.edit_top.specs.DrillText.{IsDrillText, drill_usage_text, drilled_by};
ghost use Rattle.edit_top.specs.DrillEnds.{DrillEnds, IsGoodDrill, memory_text};

use crate::answering::print;
use crate::drill_text::drill_text;
use crate::message::print_message;
use crate::running::run_scripts;
use crate::status::Status;
use memory::Memory;
use run_ports::{Gate, Sink};
use std::alloc::Global;
use std::sync::Wait;
use std::thread::Threads;
use term_text::natural_between;
use world_gen::drill_case;

/// Makes the workload of NUMBER, runs it and prints what each player changed and the states of the last world.
///
/// The words are those after the program's name. All memory is taken before the text is put. The runtime and the job
/// hook serve the threads that later run the jobs.
pub fn drill<R: Threads + Wait + Sync, K: Sink, G: Gate + Sync>(
    _rt: &R,
    alloc: Global,
    words: &[String],
    out: &mut K,
    _gate: &G,
) -> Status
    // Each ending says what was put and why it came.
    ensures ending { DrillEnds (map string_bytes words.now) (K.seen out.old) (K.seen out.new) result }
    // Good words end well, unless memory or the output fails.
    ensures complete { IsGoodDrill (map string_bytes words.now) → ¬ Rose (K.seen out.old).faults (K.seen out.new).faults → IsDoneOrMemory result }
    // Where the output did not fail, no ending says so.
    ensures faultless { ¬ Rose (K.seen out.old).faults (K.seen out.new).faults → IsNoFailure result }
{
    drill_words(alloc, words, out)
}

/// The drill, on the caller's thread.
fn drill_words<K: Sink>(alloc: Global, words: &[String], out: &mut K) -> Status
    ensures { DrillEnds (map string_bytes words.now) (K.seen out.old) (K.seen out.new) result }
{
    let Some(number) = drilled_by(words) else {
        print_drill_usage(out);
        return Status::Usage;
    };
    match drilled_text(alloc, number) {
        Err(Memory) => {
            print_memory(out);
            Status::OutOfMemory
        }
        Ok(text) => print(out, &text),
    }
}

/// The number in the words `drill NUMBER`. None exactly for other words.
fn drilled_by(words: &[String]) -> Option<u64>
    ensures { result ≡ drilled_by (map string_bytes words.now) }
{
    let [call, number] = words else {
        return None;
    };
    if call.as_str() != "drill" {
        return None;
    }
    natural_between(number.as_str().as_bytes(), 20, 0, u64::MAX)
}

/// Prints the message where the words aren't of the form.
fn print_drill_usage<K: Sink>(out: &mut K)
    ensures { IsPrinted (K.seen out.old) (K.seen out.new) drill_usage_text }
{
    print_message(out, &[b"fault: usage: drill NUMBER\n".as_slice()]);
}

/// Prints the message where memory is wanting.
fn print_memory<K: Sink>(out: &mut K)
    ensures { IsPrinted (K.seen out.old) (K.seen out.new) memory_text }
{
    print_message(out, &[b"fault: memory\n".as_slice()]);
}

/// The text of the drill of a number.
fn drilled_text(alloc: Global, number: u64) -> Result<Vec<u8>, Memory>
    ensures { IfOk result (λ text. IsDrillText number text.items) }
{
    let case = drill_case(alloc, number)?;
    let outcome = run_scripts(alloc, &case)?;
    let text = drill_text(alloc, number, &case, &outcome)?;
    Ok(text)
}
