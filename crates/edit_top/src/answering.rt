//! Prints the text that a call answers with.

ghost use Rattle.edit_top.specs.CheckEnds.{Prints};

use crate::status::Status;
use run_ports::Sink;

/// Prints the text.
pub(crate) fn print<K: Sink>(out: &mut K, text: &[u8]) -> Status
    ensures { Prints text.now (K.seen out.old) (K.seen out.new) result }
{
    match out.put(text) {
        Ok(()) => Status::Done,
        Err(_failed) => Status::PrintFault,
    }
}
