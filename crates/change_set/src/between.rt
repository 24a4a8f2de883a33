//! Changes from a list of proposed ones.
ghost use Rattle.std.specs.Prelude.{◌≡◌, true, filter, IfOk};
ghost use Rattle.change_set.specs.Changes.{positions, rises, is_change};

use crate::builder::ChangeBuilder;
use crate::changes::Changes;
use crate::proposed::Proposed;
use edit_terms::WorldBox;
use memory::Memory;
use std::alloc::Global;

impl Changes {
    /// The proposed changes whose contents differ, of a world of this box.
    pub fn between(alloc: Global, area: &WorldBox, cells: &[Proposed]) -> Result<Changes, Memory>
        requires rising { rises area.now (positions cells.now) ≡ true }
        ensures kept { IfOk result (λ changes. changes ≡ record { area = area.now; list = filter is_change cells.now }) }
    {
        let mut changes = ChangeBuilder::new(alloc, area);
        for cell in cells {
            changes.push(&cell.at, &cell.before, &cell.after)?;
        }
        Ok(changes.finish())
    }
}
