//! Laws of regions, each the clause of a function that does nothing.

ghost use Rattle.std.specs.Prelude.{◌≡◌, ℕ, ◌^◌, ◌<◌, ◌&&◌};
ghost use Rattle.edit_terms.specs.Region.{IsPartOfWhole};
ghost use Rattle.edit_terms.specs.Frame.{root, IsRoot, IsRegion, IsFramed, common_box};
ghost use Rattle.edit_terms.specs.Area.{Area, holds};
ghost use Rattle.edit_terms.specs.declared.pos.Pos.{Pos};
ghost use Rattle.edit_terms.specs.declared.region.Region.{Region};

/// The root by which the frames of sphere and cylinder selections are measured is the greatest whole
/// number whose square is at most the number.
#[tactic(auto, using(crate::proofs::RegionLemmas::root_is))]
pub fn root_is_greatest()
    ensures { (n : ℕ) → n < 2 ^ 68 → IsRoot n (root n) }
{}

/// Walls, faces and hollow shapes are parts of the whole shape.
#[tactic(auto, using(crate::proofs::RegionLemmas::part_of_whole))]
pub fn region_in_whole()
    ensures { (region : Region) → IsPartOfWhole region }
{}

/// Each position of a region lies in the region's frame.
#[tactic(auto, using(crate::proofs::RegionLemmas::framed))]
pub fn region_in_frame()
    ensures { (region : Region) → IsRegion region → IsFramed region }
{}

/// The box that two boxes have in common has exactly the positions of both.
#[tactic(auto, using(crate::proofs::RegionLemmas::in_common_box))]
pub fn box_in_common()
    ensures { (a b : Area) (p : Pos) → holds (common_box a b) p ≡ (holds a p && holds b p) }
{}
