//! The blocks that a mask's leaf looks at.
ghost use Rattle.std.specs.Prelude.{◌≡◌, true, false, negsuc, MatchOption, option_copied};
ghost use Rattle.std.specs.Option.{unwrap_or};
ghost use Rattle.edit_terms.specs.Area.{is_from, holds};
ghost use Rattle.edit_terms.specs.StateText.{air};
ghost use Rattle.edit_terms.specs.World.{state_at};
ghost use Rattle.plain_terms.specs.Probes.{at_height, IsProbedBlock};

use crate::blocks::Blocks;
use crate::probe::Probe;
use edit_terms::{BlockState, Pos, WorldBox};

/// The block of the box that a probe from a position looks at. None exactly where that is outside.
#[tactic(auto, using(crate::proofs::MapLemmas::off_map))]
pub(crate) fn probed_block(area: &WorldBox, p: &Pos, probe: &Probe) -> Option<Pos>
    ensures { MatchOption result (holds area.now (at_height p.now probe.now.height) ≡ false) (IsProbedBlock area.now p.now probe.now) }
{
    area.well_formed();
    if !is_height_of_map(probe) {
        return None;
    }
    held_block(area, p, probe)
}

/// The same of a probe at a height of the map.
#[tactic(auto, using(crate::proofs::MapLemmas::held_on_map))]
fn held_block(area: &WorldBox, p: &Pos, probe: &Probe) -> Option<Pos>
    requires { is_from (negsuc 2047) 4096 probe.now.height ≡ true }
    ensures { MatchOption result (holds area.now (at_height p.now probe.now.height) ≡ false) (IsProbedBlock area.now p.now probe.now) }
{
    area.well_formed();
    let probed = lifted(p, probe);
    if !area.holds(probed) {
        return None;
    }
    Some(probed)
}

fn is_height_of_map(probe: &Probe) -> bool
    ensures { result ≡ is_from (negsuc 2047) 4096 probe.now.height }
{
    -2_048 <= probe.height && probe.height < 2_048
}

/// The position at the height of a probe.
fn lifted(p: &Pos, probe: &Probe) -> Pos
    requires { is_from (negsuc 2047) 4096 probe.now.height ≡ true }
    ensures { result ≡ at_height p.now probe.now.height }
{
    Pos {
        y: probe.height as i32,
        ..*p
    }
}

/// The state that a probe from a position looks at. None outside the box stands for air.
pub(crate) fn probed_state<'a>(
    blocks: &Blocks<'a>,
    p: &Pos,
    probe: &Probe,
) -> Option<&'a BlockState>
    ensures { unwrap_or (option_copied result) air ≡ state_at blocks.now (at_height p.now probe.now.height) }
{
    match probed_block(blocks.area(), p, probe) {
        None => None,
        Some(probed) => blocks.state_at(&probed),
    }
}
