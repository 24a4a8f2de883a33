//! Plans.

ghost use Rattle.std.specs.Prelude.{◌≡◌, ℕ, ◌*◌, ◌<◌, ◌≤◌, ◌++◌, IfOk, IfErr, List, length, map, option_copied};
ghost use Rattle.std.specs.List.{range_with_len};
ghost use Rattle.edit_terms.specs.declared.clip.Source.{Source};
ghost use Rattle.run_terms.specs.Access.{accesses_of};
ghost use Rattle.run_terms.specs.Limits.{IsWithinLimits};
ghost use Rattle.run_terms.specs.Workload.{workload_of};
ghost use Rattle.command_plan.specs.Plan.{PlanView, plan_of, planned_in, jobs_of, most_jobs, IsFaultOf};

use crate::cutting::chunk_grid_of;
use crate::plan_fault::PlanFault;
use crate::planned::Planned;
use crate::players::{all_accesses, all_planned, all_resolved};
use edit_terms::{Case, Source, WorldBox};
use std::alloc::Global;
use std::marker::Model;

/// What each command of a workload accesses.
#[derive(Drop)]
pub struct Plan {
    area: WorldBox,
    seed: u64,
    jobs: u32,
    players: Vec<Vec<Planned>>,
}

impl Model for Plan {
    ghost use Rattle.std.specs.Prelude.{◌≡◌, map};
    ghost use Rattle.command_plan.specs.Plan.{PlanView, jobs_of};

    ghost Value = { PlanView };

    ghost view = { λ p. record { area = p.area; seed = p.seed; players = map (λ commands. commands.items) p.players.items } };

    ghost invariant = { λ p. p.jobs ≡ jobs_of (record { area = p.area; seed = p.seed; players = map (λ commands. commands.items) p.players.items }) };
}

impl Plan {
    /// The plan of a workload within the limits. TooManyJobs exactly where its commands have more than
    /// 16,777,216 accesses, which is found before any list is built, and then with their number.
    #[tactic(auto, using(crate::proofs::PlanLemmas::plan_jobs))]
    pub fn plan(alloc: Global, case: &Case) -> Result<Plan, PlanFault>
        requires { IsWithinLimits (workload_of case.now) }
        ensures plan { IfOk result (λ plan. plan ≡ plan_of (workload_of case.now)) }
        ensures few { IfOk result (λ plan. accesses_of (workload_of case.now) ≤ most_jobs) }
        ensures fault { IfErr result (IsFaultOf (workload_of case.now)) }
    {
        let area = *case.opening.area();
        let grid = chunk_grid_of(&area);
        let scripts = all_resolved(alloc, case)?;
        let jobs = all_accesses(alloc, case, &grid, &scripts)?;
        if jobs > 16_777_216 {
            return Err(PlanFault::TooManyJobs { jobs });
        }
        let players = all_planned(alloc, case, &grid, scripts)?;
        Ok(Plan {
            area,
            seed: case.seed,
            jobs: jobs as u32,
            players,
        })
    }

    /// What is planned for a command. None exactly where the player has no such command.
    pub fn planned(&self, source: Source) -> Option<&Planned>
        ensures { option_copied result ≡ planned_in self.now source }
    {
        let commands = self.players.get(source.player as usize)?;
        commands.get(source.step as usize)
    }

    /// How many accesses the commands have, each chunk counted once for a read and once for a write.
    pub fn jobs(&self) -> u32
        ensures { result ≡ jobs_of self.now }
    {
        self.jobs
    }

    /// The box of the workload's world.
    pub fn area(&self) -> &WorldBox
        ensures { result.now ≡ self.now.area }
    {
        &self.area
    }

    /// The seed of the workload's random choices.
    pub fn seed(&self) -> u64
        ensures { result ≡ self.now.seed }
    {
        self.seed
    }
}
