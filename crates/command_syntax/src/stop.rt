//! Why the reading of a line stops.
ghost use Rattle.std.specs.Prelude.{◌≡◌};
ghost use Rattle.command_syntax.specs.declared.stop.Stop.TheVariants as stops;

use crate::fault::LineFault;
use memory::Memory;

/// The line's first fault, or a refused allocation.
#[derive(Debug, Drop)]
pub(crate) enum Stop {
    Fault(LineFault),
    Memory,
}

impl From<Memory> for Stop {
    ghost from_gives = { λ _ stop. stop ≡ stops.Memory };

    fn from(_error: Memory) -> Stop {
        Stop::Memory
    }
}
