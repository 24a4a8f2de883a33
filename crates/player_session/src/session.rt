//! A player's session and its next command.

ghost use Rattle.std.specs.Prelude.{◌≡◌, ◌+◌, ◌<◌, ◌≤◌, IfOk, OnOk, OnErr};
ghost use Rattle.run_terms.specs.Session.{opening_session, selection_of, resolved_command, after_command, IsHistory};

mod change;
mod clipboard;
mod edits;
mod refusal;
mod work;

use crate::history::History;
use crate::masks::mask_set;
use edit_terms::{Clip, Command, Kind, Mask, Pos, Selection, Step};
use memory::Memory;
use std::alloc::Global;
use std::marker::Model;

/// What one player's commands have set so far.
#[derive(Debug, Drop)]
pub struct Session {
    player: u32,
    depth: u32,
    number: u32,
    kind: Kind,
    first: Option<Pos>,
    second: Option<Pos>,
    place: Option<Pos>,
    global: Option<Mask>,
    clip: Option<Clip>,
    history: History,
}

impl Model for Session {
    ghost use Rattle.run_terms.specs.Session as terms;
    ghost use Rattle.player_session.specs.Kept.{IsKept};

    ghost Value = { terms.Session };

    ghost view = { λ s. record {
      player = s.player;
      depth = s.depth;
      number = s.number;
      kind = s.kind;
      first = s.first;
      second = s.second;
      place = s.place;
      global = s.global;
      clip = s.clip;
      edits = s.history.edits.items;
      cursor = s.history.cursor;
    } };

    ghost invariant = { λ s. IsKept s.depth s.number s.history };
}

impl Session {
    /// The session of the player of this number before its first command, with a history of this many edits,
    /// 1 to 1,000. It takes the history's room at once.
    pub fn start(alloc: Global, player: u32, depth: u32) -> Result<Session, Memory>
        requires low { 1 ≤ depth }
        requires high { depth ≤ 1000 }
        ensures { IfOk result (λ session. session ≡ opening_session player depth) }
    {
        Ok(Session {
            player,
            depth,
            number: 0,
            kind: Kind::Cuboid,
            first: None,
            second: None,
            place: None,
            global: None,
            clip: None,
            history: History::start(alloc, depth)?,
        })
    }

    /// Does nothing: the depth is 1 to 1,000, at most 10,000 commands were taken, and the history holds
    /// earlier ones of them.
    pub fn well_formed(&self)
        ensures low { 1 ≤ self.now.depth }
        ensures high { self.now.depth ≤ 1000 }
        ensures count { self.now.number ≤ 10000 }
        ensures history { IsHistory self.now }
    {
        let _depth = self.depth;
    }

    /// The player's number.
    pub fn player(&self) -> u32
        ensures { result ≡ self.now.player }
    {
        self.player
    }

    /// How many commands it has taken, at most 10,000.
    pub fn number(&self) -> u32
        ensures number { result ≡ self.now.number }
        ensures most { result ≤ 10000 }
    {
        self.number
    }

    /// The clipboard, if there is one.
    pub fn clip(&self) -> Option<Clip>
        ensures { result ≡ self.now.clip }
    {
        self.clip
    }

    /// The selection. None exactly where a position isn't set.
    pub fn selection(&self) -> Option<Selection>
        ensures { result ≡ selection_of self.now }
    {
        match (self.first, self.second) {
            (Some(first), Some(second)) => Some(Selection {
                kind: self.kind,
                first,
                second,
            }),
            _ => None,
        }
    }

    /// What the next command of the player's script is, and the session behind it. Where memory is wanted
    /// the session is as before.
    pub fn next(&mut self, alloc: Global, command: &Command) -> Result<Step, Memory>
        requires { self.old.number < 10000 }
        ensures step { IfOk result (λ step. step ≡ resolved_command self.old command.now) }
        ensures after { OnOk result (self.new ≡ after_command self.old command.now) }
        ensures number { OnOk result (self.new.number ≡ self.old.number + 1) }
        ensures unchanged { OnErr result (self.new ≡ self.old) }
    {
        if let Some(refusal) = self.refusal(command) {
            self.count();
            return Ok(Step::Refused(refusal));
        }
        let step = self.step(alloc, command)?;
        let mask = mask_set(alloc, command)?;
        self.change(command, mask);
        Ok(step)
    }
}
