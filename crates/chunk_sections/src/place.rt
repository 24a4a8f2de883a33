//! Where the blocks of a chunk lie.
ghost use Rattle.std.specs.Prelude.{◌≡◌, ◌<◌, ◌≤◌, true, pos, negsuc, ◌+ℤ◌, ◌*ℤ◌, ◌≤ℤ◌};
ghost use Rattle.std.specs.Int.{int_max};
ghost use Rattle.edit_terms.specs.Area.{holds, sixteenth, chunks, columns};
ghost use Rattle.chunk_sections.specs.Column.{column_start_at, first_block, column_box};

use edit_terms::{Pos, WorldBox, chunk_box};

/// The blocks of a chunk of the box, which are a box themselves.
pub(crate) fn column_box(area: &WorldBox, chunk: u32) -> WorldBox
    requires { chunk < chunks area.now }
    ensures value { result ≡ column_box area.now chunk }
    ensures narrow { result.width ≤ 16 }
    ensures short { result.length ≤ 16 }
{
    chunk_box(area, &first_block(area, chunk))
}

/// The first block of a chunk.
fn first_block(area: &WorldBox, chunk: u32) -> Pos
    requires { chunk < chunks area.now }
    ensures value { result ≡ first_block area.now chunk }
    ensures held { holds area.now result ≡ true }
{
    area.well_formed();
    let columns = area.chunk_columns();
    corner(&area.least(), chunk % columns, chunk / columns)
}

/// The least corner of the chunk that lies so many columns behind the first along x and along z.
fn corner(least: &Pos, x: u32, z: u32) -> Pos
    requires low_x { negsuc 33554431 ≤ℤ least.now.x }
    requires high_x { least.now.x ≤ℤ pos 33554431 }
    requires low_z { negsuc 33554431 ≤ℤ least.now.z }
    requires high_z { least.now.z ≤ℤ pos 33554431 }
    requires few_x { x ≤ 4097 }
    requires few_z { z ≤ 4097 }
    ensures x { result.x ≡ int_max least.now.x (column_start_at least.now.x x) }
    ensures y { result.y ≡ least.now.y }
    ensures z { result.z ≡ int_max least.now.z (column_start_at least.now.z z) }
{
    Pos {
        x: least.x.max(start_x(least, x)),
        y: least.y,
        z: least.z.max(start_z(least, z)),
    }
}

/// The first coordinate x of the column that comes so many behind the first.
fn start_x(least: &Pos, behind: u32) -> i32
    requires low { negsuc 33554431 ≤ℤ least.now.x }
    requires high { least.now.x ≤ℤ pos 33554431 }
    requires few { behind ≤ 4097 }
    ensures { result ≡ column_start_at least.now.x behind }
{
    (least.x.div_euclid(16) + behind as i32) * 16
}

/// The first coordinate z of the column that comes so many behind the first.
fn start_z(least: &Pos, behind: u32) -> i32
    requires low { negsuc 33554431 ≤ℤ least.now.z }
    requires high { least.now.z ≤ℤ pos 33554431 }
    requires few { behind ≤ 4097 }
    ensures { result ≡ column_start_at least.now.z behind }
{
    (least.z.div_euclid(16) + behind as i32) * 16
}
