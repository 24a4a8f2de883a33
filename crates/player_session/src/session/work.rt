//! What a command does to the world: its work, and all that the work reads fixed.

ghost use Rattle.std.specs.Prelude.{◌≡◌, true, false, IfOk};
ghost use Rattle.std.specs.Option.{option_map_or};
ghost use Rattle.edit_terms.specs.declared.step.Step.TheVariants.{Settled};
ghost use Rattle.edit_terms.specs.declared.region.Region.TheVariants as region;
ghost use Rattle.edit_terms.specs.declared.step.Work.TheVariants as work;
ghost use Rattle.run_terms.specs.Commands.{is_on_selection, is_at_place};
ghost use Rattle.run_terms.specs.Session.{work_of, job_of};

use crate::masks::copied_mask;
use crate::session::Session;
use edit_terms::{BlockState, Command, Mask, Pattern, Pos, Region, Selection, Spec, Step, Work};
use memory::Memory;
use std::alloc::Global;

impl Session {
    /// What the command is if it isn't refused.
    pub(super) fn step(&self, alloc: Global, command: &Command) -> Result<Step, Memory>
        ensures { IfOk result (λ step. step ≡ option_map_or (job_of self.now) (work_of self.now command.now) Settled) }
    {
        let Some(work) = self.work(alloc, command)? else {
            return Ok(Step::Settled);
        };
        Ok(Step::Job(Spec {
            work,
            global: copied_mask(alloc, &self.global)?,
            selection: self.selection(),
            clip: self.clip,
        }))
    }

    /// The command's work. None where it changes the session alone.
    fn work(&self, alloc: Global, command: &Command) -> Result<Option<Work>, Memory>
        ensures { IfOk result (λ made. made ≡ work_of self.now command.now) }
    {
        match command {
            Command::Block { at, state } => Ok(Some(put(alloc, *at, state)?)),
            Command::Set { .. }
            | Command::Walls { .. }
            | Command::Faces { .. }
            | Command::Replace { .. }
            | Command::Stack { .. }
            | Command::Move { .. }
            | Command::Copy
            | Command::Cut => self.selection_work(alloc, command),
            Command::Sphere { .. } | Command::Cyl { .. } | Command::Paste { .. } => {
                self.place_work(alloc, command)
            }
            Command::Undo { count } => Ok(Some(Work::Undo {
                steps: self.undone_steps(alloc, *count)?,
            })),
            Command::Redo { count } => Ok(Some(Work::Redo {
                steps: self.redone_steps(alloc, *count)?,
            })),
            Command::Pos1 { .. }
            | Command::Pos2 { .. }
            | Command::Place { .. }
            | Command::Sel { .. }
            | Command::Rotate { .. }
            | Command::Flip { .. }
            | Command::Gmask { .. } => Ok(None),
        }
    }

    /// The work of a command on the selection. None where there is no selection.
    fn selection_work(&self, alloc: Global, command: &Command) -> Result<Option<Work>, Memory>
        requires { is_on_selection command.now ≡ true }
        ensures { IfOk result (λ made. made ≡ work_of self.now command.now) }
    {
        let Some(from) = self.selection() else {
            return Ok(None);
        };
        match command {
            Command::Set { pattern } => Ok(Some(fill(alloc, Region::Selected(from), pattern)?)),
            Command::Walls { pattern } => Ok(Some(fill(alloc, Region::Walls(from), pattern)?)),
            Command::Faces { pattern } => Ok(Some(fill(alloc, Region::Faces(from), pattern)?)),
            Command::Replace { mask, pattern } => Ok(Some(replace(alloc, from, mask, pattern)?)),
            Command::Stack { count, to } => Ok(Some(Work::Stack {
                from,
                count: *count,
                to: *to,
            })),
            Command::Move { count, to } => Ok(Some(Work::Move {
                from,
                count: *count,
                to: *to,
            })),
            Command::Copy => Ok(Some(Work::Copy { from })),
            Command::Cut => Ok(Some(Work::Cut { from })),
            _ => unreachable!(),
        }
    }

    /// The work of a command at the placement position, copies and cuts aside. None where there is no such
    /// position.
    fn place_work(&self, alloc: Global, command: &Command) -> Result<Option<Work>, Memory>
        requires place { is_at_place command.now ≡ true }
        requires selection { is_on_selection command.now ≡ false }
        ensures { IfOk result (λ made. made ≡ work_of self.now command.now) }
    {
        let Some(place) = self.place else {
            return Ok(None);
        };
        match command {
            Command::Sphere {
                pattern,
                radius,
                hollow,
            } => {
                let region = Region::Ball {
                    centre: place,
                    radius: *radius,
                    hollow: *hollow,
                };
                Ok(Some(fill(alloc, region, pattern)?))
            }
            Command::Cyl {
                pattern,
                radius,
                height,
                hollow,
            } => {
                let region = Region::Tube {
                    centre: place,
                    radius: *radius,
                    height: *height,
                    hollow: *hollow,
                };
                Ok(Some(fill(alloc, region, pattern)?))
            }
            Command::Paste { skip_air } => Ok(Some(Work::Paste {
                place,
                skip_air: *skip_air,
            })),
            _ => unreachable!(),
        }
    }
}

/// Puts a state at one position.
fn put(alloc: Global, at: Pos, state: &BlockState) -> Result<Work, Memory>
    ensures { IfOk result (λ made. made ≡ work.Put at state.now) }
{
    Ok(Work::Put {
        at,
        state: state.copy(alloc)?,
    })
}

/// Fills a region wherever it is.
fn fill(alloc: Global, region: Region, pattern: &Pattern) -> Result<Work, Memory>
    ensures { IfOk result (λ made. made ≡ work.Fill region None pattern.now) }
{
    Ok(Work::Fill {
        region,
        mask: None,
        pattern: pattern.copy(alloc)?,
    })
}

/// Fills a selection where the mask holds.
fn replace(alloc: Global, from: Selection, mask: &Mask, pattern: &Pattern) -> Result<Work, Memory>
    ensures { IfOk result (λ made. made ≡ work.Fill (region.Selected from) (Some mask.now) pattern.now) }
{
    Ok(Work::Fill {
        region: Region::Selected(from),
        mask: Some(mask.copy(alloc)?),
        pattern: pattern.copy(alloc)?,
    })
}
