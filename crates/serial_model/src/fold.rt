//! The serial fold: one command of an order after the other.

ghost use Rattle.std.specs.Prelude.{◌≡◌, ℕ, suc, ◌<◌, List, length, IfOk, IfErr, OnOk, MatchOption};
ghost use Rattle.edit_terms.specs.Grid.{world_of};
ghost use Rattle.run_terms.specs.Limits.{IsWithinLimits};
ghost use Rattle.run_terms.specs.Workload.{workload_of};
ghost use Rattle.serial_model.specs.Folded.{IsFolded};
ghost use Rattle.serial_model.specs.Illegal.{IsErrorOf};
ghost use Rattle.serial_model.specs.Turns.{HasNoCommand, IsNextCommand};
ghost use Rattle.world_canvas.specs.Canvas.{shown};

use crate::acting::act;
use crate::plain_error::PlainError;
use crate::player::{Player, start_all};
use edit_terms::{Case, Command, Items, Outcome, Reply};
use memory::Memory;
use std::alloc::Global;
use world_canvas::Canvas;

/// The world, the players and the replies after some tickets of an order.
#[derive(Drop)]
pub(crate) struct Fold {
    canvas: Canvas,
    players: Vec<Player>,
    replies: Vec<Reply>,
}

impl Fold {
    /// Before the first ticket of any order.
    pub(crate) fn start(alloc: Global, case: &Case) -> Result<Fold, Memory>
        requires { IsWithinLimits (workload_of case.now) }
        ensures { IfOk result (λ fold. (order : List ℕ) → IsFolded (workload_of case.now) order 0 fold.canvas fold.players.items fold.replies.items) }
    {
        let canvas = Canvas::of(alloc, &case.opening)?;
        let players = start_all(alloc, case.depth, player_count(case))?;
        Ok(Fold {
            canvas,
            players,
            replies: Vec::new(alloc),
        })
    }

    /// Takes the next ticket of an order. Illegal exactly where that makes the order illegal.
    pub(crate) fn next(
        &mut self,
        alloc: Global,
        case: &Case,
        order: &[u32],
        ticket: u32,
    ) -> Result<(), PlainError>
        requires limits { IsWithinLimits (workload_of case.now) }
        requires ticket { ticket < length order.now }
        requires folded { IsFolded (workload_of case.now) order.now ticket self.old.canvas self.old.players.items self.old.replies.items }
        ensures folded { OnOk result (IsFolded (workload_of case.now) order.now (suc ticket) self.new.canvas self.new.players.items self.new.replies.items) }
        ensures illegal { IfErr result (IsErrorOf case.now.scripts order.now) }
    {
        self.canvas.well_formed();
        let player = order[ticket as usize];
        let Some(command) = self.next_command(case, player) else {
            return Err(PlainError::Illegal { at: ticket });
        };
        let acting = &mut self.players[player as usize];
        let reply = act(alloc, case.seed, ticket, &mut self.canvas, acting, command)?;
        self.replies.push(reply)?;
        Ok(())
    }

    /// The next command of a player. None exactly where there is no such player, or the player has none left.
    fn next_command<'a>(&self, case: &'a Case, player: u32) -> Option<&'a Command>
        requires { length self.now.players.items ≡ length case.now.scripts }
        ensures { MatchOption result (HasNoCommand case.now.scripts self.now.players.items player) (λ command. IsNextCommand case.now.scripts self.now.players.items player command.now) }
    {
        let script = case.scripts.as_slice().get(player as usize)?;
        let number = self.players[player as usize].session.number();
        let line = script.lines.as_slice().get(number as usize)?;
        Some(&line.command)
    }

    /// What stands after all tickets.
    pub(crate) fn finish(self, alloc: Global, order: &[u32]) -> Result<Outcome, Memory>
        ensures order { IfOk result (λ outcome. outcome.order ≡ order.now) }
        ensures replies { IfOk result (λ outcome. outcome.replies ≡ self.replies.items) }
        ensures world { IfOk result (λ outcome. world_of outcome.world ≡ shown self.canvas) }
    {
        Ok(Outcome {
            order: Items::from_vec(Vec::from_slice(alloc, order)?),
            replies: Items::from_vec(self.replies),
            world: self.canvas.into_grid(alloc)?,
        })
    }
}

/// How many players there are.
#[tactic(auto, using(run_terms::proofs::LimitLemmas::few_players))]
fn player_count(case: &Case) -> u32
    requires { IsWithinLimits (workload_of case.now) }
    ensures { result ≡ length case.now.scripts }
{
    case.scripts.as_slice().len() as u32
}
