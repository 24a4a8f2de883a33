//! Whether a mask's leaf looks at a position of a selection.
ghost use Rattle.std.specs.Prelude.{◌≡◌, true};
ghost use Rattle.edit_terms.specs.Frame.{IsPosition};
ghost use Rattle.edit_terms.specs.Region.{is_selected};
ghost use Rattle.plain_terms.specs.Places.{is_near, pos_of};
ghost use Rattle.plain_terms.specs.Probes.{at_height};

use crate::place::Place;
use crate::probe::Probe;
use crate::selection::is_in_selection;
use edit_terms::{Pos, Selection};

/// True exactly where a probe from a position looks at one of the selection. Far below or above the positions
/// of 32 bits there is none.
#[tactic(auto, using(crate::proofs::FarLemmas::far_unselected))]
pub(crate) fn is_probed_selected(selection: &Selection, p: &Pos, probe: &Probe) -> bool
    ensures { result ≡ is_selected selection.now (at_height p.now probe.now.height) }
{
    fits(&selection.first);
    fits(&selection.second);
    if !is_near(probe) {
        return false;
    }
    is_in_selection(selection, &probed_place(p, probe))
}

fn is_near(probe: &Probe) -> bool
    ensures { result ≡ is_near probe.now.height }
{
    -34_359_738_368 <= probe.height && probe.height <= 34_359_738_368
}

/// The place at the height of a probe.
fn probed_place(p: &Pos, probe: &Probe) -> Place
    requires { is_near probe.now.height ≡ true }
    ensures { pos_of result ≡ at_height p.now probe.now.height }
{
    Place {
        x: i64::from(p.x),
        y: probe.height as i64,
        z: i64::from(p.z),
    }
}

/// Does nothing: the coordinates fit 32 bits.
fn fits(p: &Pos)
    ensures { IsPosition p.now }
{
    let (_x, _y, _z) = (p.x, p.y, p.z);
}
