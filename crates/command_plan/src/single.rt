//! The extents of single blocks.

ghost use Rattle.std.specs.Prelude.{◌≡◌};
ghost use Rattle.run_terms.specs.Access.{single_box};
ghost use Rattle.region_shapes.specs.Extents.{extent_of};

use edit_terms::Pos;
use region_shapes::{Extent, numbers_from};

/// The extent of a single block.
pub(crate) fn single_extent(p: &Pos) -> Extent
    ensures { result ≡ extent_of (single_box p.now) }
{
    let x = numbers_from(p.x, 1);
    let y = numbers_from(p.y, 1);
    let z = numbers_from(p.z, 1);
    Extent { x, y, z }
}
