//! What masks read.
use crate::blocks::Blocks;
use edit_terms::Selection;
use std::marker::Model;

/// What a mask reads: the world before the ticket, the player's selection then, the run's seed and the
/// ticket.
#[derive(Drop)]
pub struct Scene<'a> {
    pub blocks: &'a Blocks<'a>,
    pub selection: Option<Selection>,
    pub seed: u64,
    pub ticket: u32,
}

impl<'a> Model for Scene<'a> {
    ghost use Rattle.edit_terms.specs.Mask.{Scene};

    ghost Value = { Scene };

    ghost view = { λ s. record { world = s.blocks.now; selection = s.selection; seed = s.seed; ticket = s.ticket } };
}
