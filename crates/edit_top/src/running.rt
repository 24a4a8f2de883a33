//! Runs the scripts of a workload.

ghost use Rattle.std.specs.Prelude.{IfOk};
ghost use Rattle.run_terms.specs.Limits.{IsWithinLimits};
ghost use Rattle.run_terms.specs.Reply.{IsOutcome};
ghost use Rattle.run_terms.specs.Workload.{workload_of};

use crate::rounds::in_rounds;
use edit_terms::{Case, Outcome};
use memory::Memory;
use serial_model::{PlainError, plain_run};
use std::alloc::Global;

/// Runs the scripts in rounds, by the reference execution.
#[tactic(auto, using(crate::proofs::RoundLemmas::not_illegal, crate::proofs::RoundLemmas::is_outcome, run_terms::proofs::LimitLemmas::few_players))]
pub(crate) fn run_scripts(alloc: Global, case: &Case) -> Result<Outcome, Memory>
    requires { IsWithinLimits (workload_of case.now) }
    ensures { IfOk result (IsOutcome (workload_of case.now)) }
{
    let order = in_rounds(alloc, case.scripts.as_slice())?;
    match plain_run(alloc, case, &order) {
        Ok(outcome) => Ok(outcome),
        Err(PlainError::Memory) => Err(Memory),
        Err(PlainError::Illegal { .. }) => unreachable!(),
    }
}
