//! Plans.

ghost use Rattle.run_terms.specs.Limits.{IsWithinLimits};
ghost use Rattle.run_terms.specs.Workload.{workload_of};

use crate::numbers::number_before;
use crate::positions::push_position;
use crate::scripts::{bytes_of, read};
use crate::workloads::{workload, workload_with};
use case_lines::{Answer, push_text};
use command_plan::{Plan, PlanFault, Planned};
use edit_terms::{Case, Script, Source, WorldBox};
use std::alloc::Global;

/// `WORLD; SCRIPTS`: what each command reads and writes, and how many jobs there are.
pub(crate) fn answer_plan(alloc: Global, input: &str, answer: &mut Answer) -> Option<()> {
    let (world, scripts) = input.split_once("; ")?;
    let case = workload(alloc, world, scripts)?;
    let plan = plan_of(alloc, &case)?;
    push_players(answer, &plan, case.scripts.as_slice().len());
    push_jobs(answer, plan.jobs());
    Some(())
}

/// `N WORLD; SCRIPT`: how many jobs there are where the last command stands N times.
pub(crate) fn answer_many(alloc: Global, input: &str, answer: &mut Answer) -> Option<()> {
    let (count, rest) = number_before(input)?;
    let (world, script) = rest.split_once("; ")?;
    let scripts = repeated(alloc, script, count)?;
    let case = workload_with(alloc, world, scripts)?;
    match Plan::plan(alloc, &case) {
        Ok(plan) => {
            push_jobs(answer, plan.jobs());
            Some(())
        }
        Err(fault) => {
            push_fault(answer, fault);
            Some(())
        }
    }
}

/// `WORLD; SCRIPTS`: how many jobs there are, the seed and the box.
pub(crate) fn answer_head(alloc: Global, input: &str, answer: &mut Answer) -> Option<()> {
    let (world, scripts) = input.split_once("; ")?;
    let case = workload(alloc, world, scripts)?;
    let plan = plan_of(alloc, &case)?;
    push_jobs(answer, plan.jobs());
    answer.text(", seed ");
    answer.number(plan.seed());
    answer.text(", ");
    push_area(answer, plan.area());
    Some(())
}

/// Appends a box.
fn push_area(answer: &mut Answer, area: &WorldBox) {
    answer.number(area.width());
    answer.text("x");
    answer.number(area.height());
    answer.text("x");
    answer.number(area.length());
    answer.text(" at ");
    push_position(answer, &area.least())
}

/// A script whose last command stands so many times.
fn repeated(alloc: Global, script: &str, count: u64) -> Option<Vec<Script>> {
    let mut bytes = bytes_of(alloc, script)?;
    let (_, last) = script.rsplit_once(" | ")?;
    for _ in 1..count {
        add_line(&mut bytes, last)?;
    }
    let script = read(alloc, &bytes)?;
    vec![in alloc; script].ok()
}

fn add_line(bytes: &mut Vec<u8>, line: &str) -> Option<()> {
    push_text(bytes, line).ok()?;
    push_text(bytes, "\n").ok()
}

/// The plan of a workload.
fn plan_of(alloc: Global, case: &Case) -> Option<Plan>
    requires { IsWithinLimits (workload_of case.now) }
{
    match Plan::plan(alloc, case) {
        Ok(plan) => Some(plan),
        Err(_) => None,
    }
}

fn push_fault(answer: &mut Answer, fault: PlanFault) {
    match fault {
        PlanFault::TooManyJobs { jobs } => {
            answer.text("too many jobs: ");
            answer.number(jobs)
        }
        PlanFault::Memory => answer.fail(),
    }
}

fn push_jobs(answer: &mut Answer, jobs: u32) {
    answer.number(jobs);
    answer.text(" jobs")
}

/// Appends the commands of so many players, and those of one more, who has none.
fn push_players(answer: &mut Answer, plan: &Plan, players: usize) {
    for player in 0..players.saturating_add(1) {
        match u32::try_from(player) {
            Ok(player) => push_commands(answer, plan, player),
            Err(_) => answer.fail(),
        }
    }
}

/// Appends the commands of a player, as long as there are any.
fn push_commands(answer: &mut Answer, plan: &Plan, player: u32) {
    for step in 0..10_001 {
        match plan.planned(Source { player, step }) {
            None => return,
            Some(planned) => push_planned(answer, planned),
        }
    }
}

/// Appends what a command reads and writes, and whether its changes are kept.
fn push_planned(answer: &mut Answer, planned: &Planned) {
    push_chunks(answer, planned.reads.as_slice());
    answer.text(">");
    push_chunks(answer, planned.writes.as_slice());
    if planned.keeps {
        answer.text(" kept");
    }
    answer.text(" | ")
}

fn push_chunks(answer: &mut Answer, chunks: &[u32]) {
    let mut blank = "";
    for chunk in chunks {
        answer.text(blank);
        answer.number(*chunk);
        blank = " ";
    }
}
