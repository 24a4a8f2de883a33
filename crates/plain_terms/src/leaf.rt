//! What a mask term tests in the end.
ghost use Rattle.std.specs.Prelude.{◌≡◌, ◌+◌, ◌≤◌, ◌<◌, ◌&&◌};
ghost use Rattle.edit_terms.specs.declared.mask.Leaf.TheVariants.{Noise, InSelection};
ghost use Rattle.edit_terms.specs.Mask.{is_by_chance, leaf_holds, noise_leaves};
ghost use Rattle.plain_terms.specs.Probes.{at_height};

use crate::draw::draw_word;
use crate::likeness::{has_properties, is_existing, is_like_any};
use crate::probe::Probe;
use crate::probed::{probed_block, probed_state};
use crate::probed_selection::is_probed_selected;
use crate::scene::Scene;
use edit_terms::{Leaf, Pos};

/// True exactly where the leaf holds at what a probe from a position looks at. The number is that of its
/// noise, if it is one.
pub(crate) fn leaf_holds(leaf: &Leaf, number: u32, scene: &Scene, p: &Pos, probe: &Probe) -> bool
    requires { number + noise_leaves leaf.now ≤ 16 }
    ensures { result ≡ leaf_holds leaf.now number scene.now (at_height p.now probe.now.height) }
{
    match leaf {
        Leaf::Noise(chance) => is_noisy(*chance, number, scene, p, probe),
        Leaf::Existing => is_existing(probed_state(scene.blocks, p, probe)),
        Leaf::InSelection => is_in_selection(scene, p, probe),
        Leaf::Has(properties) => {
            has_properties(probed_state(scene.blocks, p, probe), properties.as_slice())
        }
        Leaf::OneOf(states) => is_like_any(probed_state(scene.blocks, p, probe), states.as_slice()),
    }
}

/// How many noise leaves a leaf is.
pub(crate) fn noise_leaves(leaf: &Leaf) -> u32
    ensures value { result ≡ noise_leaves leaf.now }
    ensures most { result ≤ 1 }
{
    match leaf {
        Leaf::Noise(_) => 1,
        _ => 0,
    }
}

fn is_in_selection(scene: &Scene, p: &Pos, probe: &Probe) -> bool
    ensures { result ≡ leaf_holds InSelection 0 scene.now (at_height p.now probe.now.height) }
{
    match &scene.selection {
        None => false,
        Some(selection) => is_probed_selected(selection, p, probe),
    }
}

fn is_noisy(chance: u8, number: u32, scene: &Scene, p: &Pos, probe: &Probe) -> bool
    requires { number < 16 }
    ensures { result ≡ leaf_holds (Noise chance) number scene.now (at_height p.now probe.now.height) }
{
    match probed_block(scene.blocks.area(), p, probe) {
        None => false,
        Some(probed) => is_by_chance(chance, draw_word(scene.seed, scene.ticket, number, &probed)),
    }
}

fn is_by_chance(chance: u8, word: u32) -> bool
    ensures { result ≡ is_by_chance chance word }
{
    u64::from(word) * 100 < u64::from(chance) * 4_294_967_296
}
