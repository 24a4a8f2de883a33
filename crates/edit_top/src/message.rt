//! Prints the message of an ending.

ghost use Rattle.std.specs.Prelude.{◌++◌, flat_map};
ghost use Rattle.edit_top.specs.Ends.{IsPrinted};
ghost use Rattle.edit_top.specs.Words.{names_view};
ghost use Rattle.edit_top.specs.Status.{fault_text, usage_text};

use crate::script_fault::print_script_fault;
use crate::status::Status;
use crate::words::Names;
use crate::world_fault::print_world_fault;
use itoa::Buffer;
use run_ports::Sink;

/// Prints the message where the words aren't of the form.
pub(crate) fn print_usage<K: Sink>(out: &mut K)
    ensures { IsPrinted (K.seen out.old) (K.seen out.new) usage_text }
{
    print_message(
        out,
        &[b"fault: usage: run WORLD OUT SEED WORKERS DEPTH SCRIPT\n".as_slice()],
    );
}

/// Prints the message of an ending.
pub(crate) fn print_fault<K: Sink>(out: &mut K, names: &Names<'_>, status: &Status)
    ensures { IsPrinted (K.seen out.old) (K.seen out.new) (fault_text (names_view names.now) status.now) }
{
    match status {
        Status::Done | Status::PrintFault => print_message(out, &[]),
        Status::Usage => print_usage(out),
        Status::ReadFault { file } => {
            print_about(out, b"fault: cannot read ", names.file(*file), b"\n");
        }
        Status::TooLong { file } => {
            print_about(out, b"fault: too long: ", names.file(*file), b"\n");
        }
        Status::WorldRefused { fault } => print_world_fault(out, fault),
        Status::ScriptRefused { script, fault } => {
            print_script_fault(out, names.file(*script), fault);
        }
        Status::DuplicatePlayer { script } => {
            let name = names.file(*script);
            print_about(out, b"fault: script ", name, b": player already used\n");
        }
        Status::TooManyJobs { jobs } => {
            let mut number = Buffer::new();
            print_about(
                out,
                b"fault: too many jobs: ",
                number.format(*jobs).as_bytes(),
                b"\n",
            );
        }
        Status::SaveFault => {
            print_about(out, b"fault: cannot save ", names.out.as_bytes(), b"\n");
        }
        Status::OutOfMemory => print_message(out, &[b"fault: memory\n".as_slice()]),
    }
}

/// Puts a name between these words.
fn print_about<K: Sink>(out: &mut K, start: &[u8], name: &[u8], end: &[u8])
    ensures { IsPrinted (K.seen out.old) (K.seen out.new) (start.now ++ name.now ++ end.now) }
{
    print_message(out, &[start, name, end]);
}

/// Puts the pieces one after the other, and nothing more after one that fails.
pub(crate) fn print_message<K: Sink>(out: &mut K, pieces: &[&[u8]])
    ensures { IsPrinted (K.seen out.old) (K.seen out.new) (flat_map (λ piece. piece.now) pieces.now) }
{
    for piece in pieces {
        if let Err(_failed) = out.put(piece) {
            return;
        }
    }
}
