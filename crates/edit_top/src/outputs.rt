//! The files that a run saves.

ghost use Rattle.std.specs.Prelude.{◌≡◌, map, OnOk, OnErr};
ghost use Rattle.run_ports.specs.Store.{IsLater};
ghost use Rattle.edit_top.specs.Outputs.{output_view, AreSaved, StopsSaving};

use run_ports::{Failed, Shelf};

/// A file to save: its name and its bytes.
#[derive(Drop)]
pub(crate) struct Output<'a> {
    pub(crate) name: &'a str,
    pub(crate) bytes: Vec<u8>,
}

/// Saves the files in order, and stops at the first save that fails.
pub(crate) fn save_all<F: Shelf>(shelf: &mut F, outputs: Vec<Output<'_>>) -> Result<(), Failed>
    ensures saved { OnOk result (AreSaved (F.seen shelf.old).files (F.seen shelf.new).files (map output_view outputs.entry.items)) }
    ensures stopped { OnErr result (StopsSaving (F.seen shelf.old) (F.seen shelf.new) (map output_view outputs.entry.items)) }
{
    for output in outputs {
        if let Err(failed) = shelf.save(output.name, output.bytes) {
            return Err(failed);
        }
    }
    Ok(())
}
