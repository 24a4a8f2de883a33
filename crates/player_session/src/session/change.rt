//! What a command that isn't refused makes of the session. Each call takes one command: it counts the command
//! and sets what the command sets. None of them allocates.

ghost use Rattle.std.specs.Prelude.{◌≡◌, ◌+◌, ◌<◌};
ghost use Rattle.run_terms.specs.Session.{with_command, counted};
ghost use Rattle.player_session.specs.Masks.{mask_set};

use crate::session::Session;
use edit_terms::{Command, Kind, Mask, Pos};

impl Session {
    /// The session behind a command that isn't refused; the mask is the one that the command sets.
    pub(super) fn change(&mut self, command: &Command, mask: Option<Mask>)
        requires number { self.old.number < 10000 }
        requires mask { mask ≡ mask_set command.now }
        ensures after { self.new ≡ counted (with_command self.old command.now) }
        ensures number { self.new.number ≡ self.old.number + 1 }
    {
        match command {
            Command::Pos1 { at } => self.take_pos1(*at),
            Command::Pos2 { at } => self.take_pos2(*at),
            Command::Place { at } => self.take_place(*at),
            Command::Sel { kind } => self.take_sel(*kind),
            Command::Gmask { .. } => self.take_gmask(mask),
            Command::Copy => self.take_copy(),
            Command::Cut => self.take_cut(),
            Command::Rotate { quarters } => self.take_rotate(*quarters),
            Command::Flip { to } => self.take_flip(*to),
            Command::Undo { count } => self.take_undo(*count),
            Command::Redo { count } => self.take_redo(*count),
            Command::Block { .. } => self.count(),
            Command::Set { .. }
            | Command::Walls { .. }
            | Command::Faces { .. }
            | Command::Replace { .. }
            | Command::Sphere { .. }
            | Command::Cyl { .. }
            | Command::Stack { .. }
            | Command::Move { .. }
            | Command::Paste { .. } => self.take_edit(),
        }
    }

    /// One more command was taken.
    pub(super) fn count(&mut self)
        requires { self.old.number < 10000 }
        ensures { self.new ≡ counted self.old }
    {
        self.number += 1;
    }

    /// The first position of the selection is set.
    fn take_pos1(&mut self, at: Pos)
        requires { self.old.number < 10000 }
        ensures { self.new ≡ counted (record self.old { first = Some at }) }
    {
        self.first = Some(at);
        self.number += 1;
    }

    /// The second position of the selection is set.
    fn take_pos2(&mut self, at: Pos)
        requires { self.old.number < 10000 }
        ensures { self.new ≡ counted (record self.old { second = Some at }) }
    {
        self.second = Some(at);
        self.number += 1;
    }

    /// The placement position is set.
    fn take_place(&mut self, at: Pos)
        requires { self.old.number < 10000 }
        ensures { self.new ≡ counted (record self.old { place = Some at }) }
    {
        self.place = Some(at);
        self.number += 1;
    }

    /// The selection's kind is set.
    fn take_sel(&mut self, kind: Kind)
        requires { self.old.number < 10000 }
        ensures { self.new ≡ counted (record self.old { kind = kind }) }
    {
        self.kind = kind;
        self.number += 1;
    }

    /// The mask of all edits is set, or dropped.
    fn take_gmask(&mut self, mask: Option<Mask>)
        requires { self.old.number < 10000 }
        ensures { self.new ≡ counted (record self.old { global = mask }) }
    {
        self.global = mask;
        self.number += 1;
    }
}
