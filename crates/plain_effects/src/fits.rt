//! What the coordinates of code are.
ghost use Rattle.edit_terms.specs.Frame.{IsPosition, IsRegion, IsSelection};

use edit_terms::{Pos, Region, Selection};

/// Does nothing: the region's positions fit 32 bits.
pub(crate) fn region_fits(region: &Region)
    ensures { IsRegion region.now }
{
    match region {
        Region::Selected(selection) => selection_fits(selection),
        Region::Walls(selection) => selection_fits(selection),
        Region::Faces(selection) => selection_fits(selection),
        Region::Ball { .. } => {}
        Region::Tube { .. } => {}
    }
}

/// Does nothing: the selection's positions fit 32 bits.
pub(crate) fn selection_fits(selection: &Selection)
    ensures { IsSelection selection.now }
{
    fits(&selection.first);
    fits(&selection.second);
}

fn fits(p: &Pos)
    ensures { IsPosition p.now }
{
    let (_x, _y, _z) = (p.x, p.y, p.z);
}
