//! One script over one world, by the reference execution.

use command_syntax::read_script;
use edit_terms::{Case, Items, Outcome, Reply};
use run_terms::keeps_limits;
use serial_model::plain_run;
use sponge_schematic::read_world;
use std::alloc::Global;

/// How many blocks the script's commands changed, one after the other. None where the world or the script isn't read,
/// or an allocation was refused.
pub fn changed(alloc: Global, world: &[u8], script: &[u8]) -> Option<u64> {
    if world.len() > 268_435_456 || script.len() > 1_048_576 {
        return None;
    }
    let script = read_script(alloc, script).ok()?;
    let commands = script.lines.as_slice().len();
    let mut scripts = Vec::new(alloc);
    scripts.push(script).ok()?;
    let case = Case {
        opening: read_world(alloc, world).ok()?.grid,
        scripts: Items::from_vec(scripts),
        seed: 0,
        depth: 15,
    };
    if !keeps_limits(&case) {
        return None;
    }
    // The order is a player number for each command; there is only player 0.
    let order = vec![in alloc; 0u32; commands].ok()?;
    let outcome = plain_run(alloc, &case, &order).ok()?;
    Some(sum(&outcome))
}

/// The sum of what the replies tell.
fn sum(outcome: &Outcome) -> u64 {
    let mut sum = 0_u64;
    for reply in outcome.replies.as_slice() {
        if let Reply::Changed(blocks) = reply {
            sum = sum.saturating_add(u64::from(*blocks));
        }
    }
    sum
}
