//! Runs of one player's commands.

use crate::outcomes::push_run;
use crate::workloads::workload;
use case_lines::Answer;
use edit_terms::Script;
use std::alloc::Global;

/// `WORLD; SCRIPT`: the replies, and the blocks that are left.
pub(crate) fn answer(alloc: Global, input: &str, answer: &mut Answer) -> Option<()> {
    let (world, script) = input.split_once("; ")?;
    let case = workload(alloc, world, script)?;
    let order = whole_order(alloc, case.scripts.as_slice())?;
    push_run(alloc, answer, &case, &order)
}

/// The order of all commands of the first player.
fn whole_order(alloc: Global, scripts: &[Script]) -> Option<Vec<u32>> {
    let script = scripts.first()?;
    vec![in alloc; 0u32; script.lines.as_slice().len()].ok()
}
