ghost use Rattle.std.specs.Prelude.{◌≡◌, ◌+◌, ◌-◌, ◌*◌, ◌<◌, ◌≤◌, ◌^◌, ◌&&◌, true, false, pos, negsuc, ◌+ℤ◌, ◌-ℤ◌, ◌*ℤ◌, ◌≤ℤ◌, ◌<ℤ◌, MatchOption, IfSome, ◌/◌, ◌%◌, nat_le};
ghost use Rattle.std.specs.Int.{int_div_euclid};
ghost use Rattle.edit_terms.specs.Area.{Area, holds, is_from, is_within, is_part, map_area, is_size, is_sized, is_world_box, volume, offset, index_of, position_of, sixteenth, columns, chunks, chunk_of, IsBlockAt};

use crate::axis::{
    column_x, column_z, columns_x, columns_z, is_from_x, is_from_y, is_from_z, is_within_x,
    is_within_y, is_within_z, moved, offset_x, offset_y, offset_z,
};
use crate::pos::{Pos, least_on_map};
use std::marker::Model;

/// The box of a world: 1 to 33,554,432 blocks, each size at most 65,535, all of it on the map (x and z
/// from -33,554,432 to 33,554,431, y from -2,048 to 2,047).
#[derive(Clone, Copy, Debug, PartialEq, Eq)]
pub struct WorldBox {
    least: Pos,
    width: u32,
    height: u32,
    length: u32,
}

impl Model for WorldBox {
    ghost use Rattle.std.specs.Prelude.{◌≡◌, true};
    ghost use Rattle.edit_terms.specs.Area.{Area, is_world_box};

    ghost Value = { Area };

    ghost view = { λ b. record { least = b.least; width = b.width; height = b.height; length = b.length } };

    ghost invariant = { λ b. is_world_box (record { least = b.least; width = b.width; height = b.height; length = b.length }) ≡ true };

    ghost inverse = { λ a. record { least = a.least; width = a.width; height = a.height; length = a.length } };
}

impl WorldBox {
    /// The box of this least corner and these sizes along x (width), y (height) and z (length). None
    /// exactly where a size is 0 or more than 65,535, the volume is more than 33,554,432, or a block is
    /// off the map.
    pub fn new(least: Pos, width: u32, height: u32, length: u32) -> Option<WorldBox>
        ensures { MatchOption result
            (is_world_box (record { least = least; width = width; height = height; length = length }) ≡ false)
            (λ b. b ≡ record { least = least; width = width; height = height; length = length }) }
    {
        if is_sized(width, height, length) && is_on_map(&least, width, height, length) {
            Some(WorldBox {
                least,
                width,
                height,
                length,
            })
        } else {
            None
        }
    }

    /// Does nothing: the box is one of a world.
    pub fn well_formed(&self)
        ensures { is_world_box self.now ≡ true }
    {
        let _least = self.least;
    }

    /// The least corner.
    pub fn least(&self) -> Pos
        ensures { result ≡ self.now.least }
    {
        self.least
    }

    /// How many blocks it has along x.
    pub fn width(&self) -> u32
        ensures { result ≡ self.now.width }
    {
        self.width
    }

    /// How many blocks it has along y.
    pub fn height(&self) -> u32
        ensures { result ≡ self.now.height }
    {
        self.height
    }

    /// How many blocks it has along z.
    pub fn length(&self) -> u32
        ensures { result ≡ self.now.length }
    {
        self.length
    }

    /// How many blocks it has.
    pub fn volume(&self) -> u32
        ensures value { result ≡ volume self.now }
        ensures within { result ≤ 33554432 }
    {
        self.width * self.height * self.length
    }

    /// True exactly for a block of the box.
    pub fn holds(&self, p: Pos) -> bool
        ensures { result ≡ holds self.now p }
    {
        is_from_x(&self.least, self.width, &p)
            && is_from_y(&self.least, self.height, &p)
            && is_from_z(&self.least, self.length, &p)
    }

    /// True exactly where each block of this box is one of the other.
    pub fn is_part_of(&self, whole: &WorldBox) -> bool
        ensures { result ≡ is_part self.now whole.now }
    {
        is_within_x(&whole.least, whole.width, &self.least, self.width)
            && is_within_y(&whole.least, whole.height, &self.least, self.height)
            && is_within_z(&whole.least, whole.length, &self.least, self.length)
    }

    /// The place of a block in the list of the box's blocks: x runs fastest, then z, then y. None
    /// exactly outside.
    pub fn index_of(&self, p: Pos) -> Option<u32>
        ensures index { MatchOption result (holds self.now p ≡ false) (λ index. IsBlockAt self.now index p) }
        ensures below { IfSome result (λ index. index < volume self.now) }
        ensures small { IfSome result (λ index. index < 33554432) }
    {
        if !self.holds(p) {
            return None;
        }
        let layer = self.width * self.length;
        let x = offset_x(&self.least, self.width, &p);
        let y = offset_y(&self.least, self.height, &p);
        let z = offset_z(&self.least, self.length, &p);
        Some(x + z * self.width + y * layer)
    }

    /// The block at a place of that list. None exactly where the index is not below the volume.
    pub fn position(&self, index: u32) -> Option<Pos>
        ensures value { MatchOption result (volume self.now ≤ index) (λ p. p ≡ position_of self.now index) }
        ensures inverse { IfSome result (IsBlockAt self.now index) }
    {
        if index >= self.volume() {
            return None;
        }
        let layer = self.width * self.length;
        let east = index % self.width;
        let up = index / layer;
        let south = index / self.width % self.length;
        Some(moved(&self.least, east, up, south))
    }

    /// How many chunks a row of chunks along x has. A chunk is a column of 16 by 16 blocks by x and z.
    pub fn chunk_columns(&self) -> u32
        ensures value { result ≡ columns self.now.least.x self.now.width }
        ensures few { result ≤ 4097 }
    {
        columns_x(&self.least, self.width)
    }

    /// How many rows of chunks the box has, one behind the other along z.
    pub fn chunk_rows(&self) -> u32
        ensures value { result ≡ columns self.now.least.z self.now.length }
        ensures few { result ≤ 4097 }
    {
        columns_z(&self.least, self.length)
    }

    /// How many chunks have a block of the box.
    pub fn chunks(&self) -> u32
        ensures { result ≡ chunks self.now }
    {
        columns_x(&self.least, self.width) * columns_z(&self.least, self.length)
    }

    /// The index of a block's chunk: from the least corner's chunk, x runs faster than z. None exactly
    /// outside.
    pub fn chunk_of(&self, p: Pos) -> Option<u32>
        ensures index { MatchOption result (holds self.now p ≡ false) (λ index. (holds self.now p ≡ true) × (index ≡ chunk_of self.now p)) }
    {
        if !self.holds(p) {
            return None;
        }
        let x = column_x(&self.least, self.width, &p);
        let z = column_z(&self.least, self.length, &p);
        Some(x + z * columns_x(&self.least, self.width))
    }
}

fn is_size(size: u32) -> bool
    ensures { result ≡ is_size size }
{
    0 < size && size <= 65_535
}

fn is_sized(width: u32, height: u32, length: u32) -> bool
    ensures { result ≡ is_sized (record { least = record { x = pos 0; y = pos 0; z = pos 0 }; width = width; height = height; length = length }) }
{
    is_size(width) && is_size(height) && is_size(length) && is_small(width, height, length)
}

fn is_small(width: u32, height: u32, length: u32) -> bool
    ensures { result ≡ nat_le (width * height * length) 33554432 }
{
    u128::from(width) * u128::from(height) * u128::from(length) <= 33_554_432
}

fn is_on_map(least: &Pos, width: u32, height: u32, length: u32) -> bool
    ensures { result ≡ is_part (record { least = least.now; width = width; height = height; length = length }) map_area }
{
    let map = least_on_map();
    is_within_x(&map, 67_108_864, least, width)
        && is_within_y(&map, 4_096, least, height)
        && is_within_z(&map, 67_108_864, least, length)
}
