//! What is recorded of a player's commands.

ghost use Rattle.std.specs.Prelude.{◌≡◌, [], ◌∷◌, ◌++◌, None, map, OnOk};
ghost use Rattle.std.specs.Option.{option_or};
ghost use Rattle.std.specs.Prelude.{option_map};
ghost use Rattle.serial_model.specs.Recorded.{Record};

use memory::Memory;
use std::alloc::Global;
use std::marker::Model;
use world_canvas::CellChange;

/// The number of each place's content as it stood when the player's clipboard was copied, if it was, and the
/// changes of each of the player's commands.
#[derive(Drop)]
pub(crate) struct Recorded {
    pub(crate) copied: Option<Vec<u32>>,
    changes: Vec<Vec<CellChange>>,
}

impl Model for Recorded {
    ghost use Rattle.std.specs.Prelude.{map, option_map};
    ghost use Rattle.serial_model.specs.Recorded.{Record};

    ghost Value = { Record };

    ghost view = { λ r. record { copied = option_map (λ cells. cells.items) r.copied; changes = map (λ cs. cs.items) r.changes.items } };
}

impl Recorded {
    /// Nothing is recorded yet. Takes no memory.
    pub(crate) fn nothing(alloc: Global) -> Recorded
        ensures { result ≡ record { copied = None; changes = [] } }
    {
        Recorded {
            copied: None,
            changes: Vec::new(alloc),
        }
    }

    /// The changes of each command.
    pub(crate) fn changes(&self) -> &[Vec<CellChange>]
        ensures { map (λ cs. cs.items) result.now ≡ self.now.changes }
    {
        &self.changes
    }

    /// Records a command's changes, and where it copied the numbers of all contents.
    pub(crate) fn add(
        &mut self,
        copied: Option<Vec<u32>>,
        changes: Vec<CellChange>,
    ) -> Result<(), Memory>
        ensures { OnOk result (self.new ≡ record { copied = option_or (option_map (λ cells. cells.items) copied) self.old.copied; changes = self.old.changes ++ changes.items ∷ [] }) }
    {
        self.changes.push(changes)?;
        match copied {
            None => Ok(()),
            Some(cells) => {
                self.copied = Some(cells);
                Ok(())
            }
        }
    }
}
