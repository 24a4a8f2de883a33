//! Plans the scripts of a workload.

ghost use Rattle.std.specs.Prelude.{◌≤◌, OnOk, IfErr};
ghost use Rattle.command_plan.specs.Plan.{most_jobs};
ghost use Rattle.edit_top.specs.Prepared.{IsMakeCause};
ghost use Rattle.run_terms.specs.Access.{accesses_of};
ghost use Rattle.run_terms.specs.Limits.{IsWithinLimits};
ghost use Rattle.run_terms.specs.Workload.{workload_of};

use crate::status::Status;
use command_plan::{Plan, PlanFault};
use edit_terms::Case;
use std::alloc::Global;

/// Plans the scripts, which may have too many jobs. The reference execution needs nothing of a plan but this.
pub(crate) fn plan(alloc: Global, case: &Case) -> Result<(), Status>
    requires { IsWithinLimits (workload_of case.now) }
    ensures few { OnOk result (accesses_of (workload_of case.now) ≤ most_jobs) }
    ensures cause { IfErr result (IsMakeCause (workload_of case.now)) }
{
    match Plan::plan(alloc, case) {
        Ok(_plan) => Ok(()),
        Err(PlanFault::TooManyJobs { jobs }) => Err(Status::TooManyJobs { jobs }),
        Err(PlanFault::Memory) => Err(Status::OutOfMemory),
    }
}
