//! The columns of 16 blocks of a part of a box, one axis at a time.

ghost use Rattle.std.specs.Prelude.{◌≡◌, ◌+◌, ◌<◌, ◌≤◌, true, pos, negsuc, ◌+ℤ◌, ◌*ℤ◌, ◌≤ℤ◌, ◌<ℤ◌};
ghost use Rattle.edit_terms.specs.Area.{sixteenth, offset, columns, is_part};
ghost use Rattle.region_shapes.specs.Chunks.{columns_before};

use edit_terms::{Pos, WorldBox};

/// Which columns of a box a part of it has.
#[derive(Clone, Copy, Debug)]
pub(crate) struct Columns {
    /// The part's first, counted from the box's first.
    pub(crate) first: u32,
    /// How many the part has.
    pub(crate) count: u32,
    /// How many the box has.
    pub(crate) whole: u32,
}

fn sixteenth_x(p: &Pos) -> i32
    ensures value { result ≡ sixteenth p.now.x }
    ensures low { (result *ℤ pos 16) ≤ℤ p.now.x }
    ensures high { p.now.x <ℤ (result *ℤ pos 16 +ℤ pos 16) }
    ensures least { negsuc 134217727 ≤ℤ result }
    ensures most { result <ℤ pos 134217728 }
{
    p.x.div_euclid(16)
}

fn sixteenth_z(p: &Pos) -> i32
    ensures value { result ≡ sixteenth p.now.z }
    ensures low { (result *ℤ pos 16) ≤ℤ p.now.z }
    ensures high { p.now.z <ℤ (result *ℤ pos 16 +ℤ pos 16) }
    ensures least { negsuc 134217727 ≤ℤ result }
    ensures most { result <ℤ pos 134217728 }
{
    p.z.div_euclid(16)
}

fn offset_x(from: &Pos, to: &Pos) -> u32
    requires { from.now.x ≤ℤ to.now.x }
    ensures value { result ≡ offset (sixteenth from.now.x) (sixteenth to.now.x) }
    ensures small { result ≤ 268435456 }
{
    let first = sixteenth_x(from);
    (sixteenth_x(to) - first) as u32
}

fn offset_z(from: &Pos, to: &Pos) -> u32
    requires { from.now.z ≤ℤ to.now.z }
    ensures value { result ≡ offset (sixteenth from.now.z) (sixteenth to.now.z) }
    ensures small { result ≤ 268435456 }
{
    let first = sixteenth_z(from);
    (sixteenth_z(to) - first) as u32
}

/// The columns along x.
#[tactic(auto, using(crate::proofs::ChunkLemmas::part_columns))]
pub(crate) fn columns_x(part: &WorldBox, area: &WorldBox) -> Columns
    requires { is_part part.now area.now ≡ true }
    ensures first { result.first ≡ columns_before area.now.least.x part.now.least.x }
    ensures count { result.count ≡ columns part.now.least.x part.now.width }
    ensures whole { result.whole ≡ columns area.now.least.x area.now.width }
    ensures within { result.first + result.count ≤ result.whole }
    ensures few { result.whole ≤ 4097 }
{
    part.well_formed();
    area.well_formed();
    Columns {
        first: offset_x(&area.least(), &part.least()),
        count: part.chunk_columns(),
        whole: area.chunk_columns(),
    }
}

/// The columns along z.
#[tactic(auto, using(crate::proofs::ChunkLemmas::part_columns))]
pub(crate) fn columns_z(part: &WorldBox, area: &WorldBox) -> Columns
    requires { is_part part.now area.now ≡ true }
    ensures first { result.first ≡ columns_before area.now.least.z part.now.least.z }
    ensures count { result.count ≡ columns part.now.least.z part.now.length }
    ensures whole { result.whole ≡ columns area.now.least.z area.now.length }
    ensures within { result.first + result.count ≤ result.whole }
    ensures few { result.whole ≤ 4097 }
{
    part.well_formed();
    area.well_formed();
    Columns {
        first: offset_z(&area.least(), &part.least()),
        count: part.chunk_rows(),
        whole: area.chunk_rows(),
    }
}
