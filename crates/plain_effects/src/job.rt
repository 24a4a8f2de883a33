//! Jobs.
use edit_terms::Spec;
use plain_terms::Blocks;
use std::marker::Model;

/// What a job reads beside the world: its resolved command, the run's seed, the ticket, and the world as it
/// stood when the clipboard was copied, which is used only where the command has a clipboard.
#[derive(Drop)]
pub struct Job<'a> {
    pub spec: &'a Spec,
    pub seed: u64,
    pub ticket: u32,
    pub earlier: &'a Blocks<'a>,
}

impl<'a> Model for Job<'a> {
    ghost use Rattle.plain_effects.specs.Jobs.{PlainJob};

    ghost Value = { PlainJob };

    ghost view = { λ j. record { spec = j.spec.now; seed = j.seed; ticket = j.ticket; earlier = j.earlier.now } };
}
