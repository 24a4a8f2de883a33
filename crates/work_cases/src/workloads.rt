//! Workloads.

ghost use Rattle.std.specs.Prelude.{IfSome};
ghost use Rattle.run_terms.specs.Limits.{IsWithinLimits};
ghost use Rattle.run_terms.specs.Workload.{workload_of};

use crate::numbers::number_behind;
use crate::scripts::all_scripts;
use crate::worlds::world_of;
use case_lines::Answer;
use edit_terms::{Case, Items, Script};
use run_terms::keeps_limits;
use std::alloc::Global;

/// The workload of a world's text, which may have a depth and a seed before it, and of scripts, where it keeps the
/// limits.
pub(crate) fn workload(alloc: Global, world: &str, scripts: &str) -> Option<Case>
    ensures { IfSome result (λ case. IsWithinLimits (workload_of case)) }
{
    let scripts = all_scripts(alloc, scripts)?;
    workload_with(alloc, world, scripts)
}

/// The workload of a world's text, which may have a depth and a seed before it, and of these scripts, where it keeps
/// the limits.
pub(crate) fn workload_with(alloc: Global, world: &str, scripts: Vec<Script>) -> Option<Case>
    ensures { IfSome result (λ case. IsWithinLimits (workload_of case)) }
{
    let case = case_of(alloc, world, scripts)?;
    if !keeps_limits(&case) {
        return None;
    }
    Some(case)
}

/// The workload of a world's text and of these scripts, within the limits or not.
fn case_of(alloc: Global, world: &str, scripts: Vec<Script>) -> Option<Case> {
    let (depth, world) = number_behind(world, "depth ", 15)?;
    let (seed, world) = number_behind(world, "seed ", 0)?;
    Some(Case {
        opening: world_of(alloc, world)?,
        scripts: Items::from_vec(scripts),
        seed,
        depth: u32::try_from(depth).ok()?,
    })
}

/// `WORLD; SCRIPTS`: whether the workload keeps the limits.
pub(crate) fn answer_limits(alloc: Global, input: &str, answer: &mut Answer) -> Option<()> {
    let (world, scripts) = input.split_once("; ")?;
    let case = case_of(alloc, world, all_scripts(alloc, scripts)?)?;
    let told = if keeps_limits(&case) {
        "kept"
    } else {
        "not kept"
    };
    answer.text(told);
    Some(())
}
