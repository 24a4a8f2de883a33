ghost use Rattle.std.specs.Prelude.{◌≡◌};
ghost use Rattle.edit_terms.specs.Region.{is_inside};
ghost use Rattle.region_shapes.specs.Interval.{is_among};
ghost use Rattle.region_shapes.specs.Rows.{IsBounded};

use crate::hollow::core_row;
use crate::interval::{Interval, is_among};
use crate::row::row_at;
use crate::whole::{is_bounded, whole_row};
use edit_terms::{Pos, Region};

/// True exactly for a position of the region. The work doesn't grow with the region.
pub fn contains(region: &Region, p: &Pos) -> bool
    ensures { result ≡ is_inside region.now p.now }
{
    is_bounded(region);
    is_in_row(region, p)
}

#[tactic(auto, using(crate::proofs::RowLemmas::rows_inside))]
fn is_in_row(region: &Region, p: &Pos) -> bool
    requires { IsBounded region.now }
    ensures { result ≡ is_inside region.now p.now }
{
    has_x(&whole_row(region, &row_at(p)), p) && !has_x(&core_row(region, p), p)
}

/// True exactly for a position whose x is one of the numbers.
fn has_x(interval: &Interval, p: &Pos) -> bool
    ensures { result ≡ is_among interval.now p.now.x }
{
    is_among(interval, p.x)
}
