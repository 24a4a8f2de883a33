//! Why a workload isn't planned.

ghost use Rattle.std.specs.Prelude.{◌≡◌};

use memory::Memory;

/// Why a workload isn't planned.
#[derive(Clone, Copy, Debug, PartialEq, Eq)]
pub enum PlanFault {
    /// The commands have this many accesses, more than 16,777,216.
    TooManyJobs { jobs: u64 },
    /// An allocation was refused.
    Memory,
}

impl From<Memory> for PlanFault {
    ghost use Rattle.command_plan.specs.declared.plan_fault.PlanFault.TheVariants as variants;

    ghost from_gives = { λ _ error. error ≡ variants.Memory };

    fn from(_error: Memory) -> PlanFault {
        PlanFault::Memory
    }
}
