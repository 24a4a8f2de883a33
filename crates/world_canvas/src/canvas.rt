//! A world whose blocks change.

ghost use Rattle.std.specs.Prelude.{◌≡◌};
ghost use Rattle.plain_terms.specs.Shown.{IsNumbered, world_shown};
ghost use Rattle.world_canvas.specs.Canvas.{shown};

use block_palette::Palette;
use edit_terms::{Content, WorldBox};
use plain_terms::Blocks;
use std::marker::Model;

/// A whole world: its box, its contents by number, and the number of each place's content in index order.
/// A content keeps its number as long as the canvas lives.
#[derive(Drop)]
pub struct Canvas {
    pub(crate) area: WorldBox,
    pub(crate) kinds: Palette<Content>,
    pub(crate) cells: Vec<u32>,
}

impl Model for Canvas {
    ghost use Rattle.plain_terms.specs.Shown.{IsNumbered};
    ghost use Rattle.world_canvas.specs.Canvas.{Painting};

    ghost Value = { Painting };

    ghost view = { λ c. record { area = c.area; kinds = c.kinds; cells = c.cells.items } };

    ghost invariant = { λ c. IsNumbered c.area c.kinds c.cells.items };
}

impl Canvas {
    /// The box.
    pub fn area(&self) -> &WorldBox
        ensures { result.now ≡ self.now.area }
    {
        &self.area
    }

    /// The number of each place's content, in index order. By them `earlier` shows the world as it is now,
    /// also when it has changed.
    pub fn cells(&self) -> &[u32]
        ensures { result.now ≡ self.now.cells }
    {
        &self.cells
    }

    /// Does nothing: each place has a number, and each number names a content.
    pub fn well_formed(&self)
        ensures { IsNumbered self.now.area self.now.kinds self.now.cells }
    {
        let _area = &self.area;
    }

    /// The blocks of the world.
    pub fn blocks(&self) -> Blocks<'_>
        ensures { result ≡ shown self.now }
    {
        Blocks::new(&self.area, &self.kinds, &self.cells)
    }

    /// The blocks of the world as it was when its places had these numbers.
    pub fn earlier<'a>(&'a self, cells: &'a [u32]) -> Blocks<'a>
        requires { IsNumbered self.now.area self.now.kinds cells.now }
        ensures { result ≡ world_shown self.now.area self.now.kinds cells.now }
    {
        Blocks::new(&self.area, &self.kinds, cells)
    }
}
