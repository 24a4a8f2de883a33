//! A world's blocks.

ghost use Rattle.std.specs.Prelude.{◌≡◌, ◌<◌, false, MatchOption, get_or, is_some, option_copied};
ghost use Rattle.std.specs.Option.{unwrap_or};
ghost use Rattle.edit_terms.specs.Area.{holds, volume};
ghost use Rattle.edit_terms.specs.StateText.{air};
ghost use Rattle.edit_terms.specs.World.{air_content, state_at};
ghost use Rattle.plain_terms.specs.Shown.{IsNumbered, StandsAt, world_shown};

use block_palette::Palette;
use edit_terms::{BlockState, Content, Pos, WorldBox};
use std::marker::Model;

/// What stands in a world: contents by number, and the number of each position's content in index order.
#[derive(Drop)]
pub struct Blocks<'a> {
    area: &'a WorldBox,
    kinds: &'a Palette<Content>,
    cells: &'a [u32],
}

impl<'a> Model for Blocks<'a> {
    ghost use Rattle.edit_terms.specs.World.{World};
    ghost use Rattle.plain_terms.specs.Shown.{IsNumbered, world_shown};

    ghost Value = { World };

    ghost view = { λ b. world_shown b.area.now b.kinds.now b.cells.now };

    ghost invariant = { λ b. IsNumbered b.area.now b.kinds.now b.cells.now };
}

impl<'a> Blocks<'a> {
    /// The world that these numbers show.
    pub fn new(area: &'a WorldBox, kinds: &'a Palette<Content>, cells: &'a [u32]) -> Blocks<'a>
        requires { IsNumbered area.now kinds.now cells.now }
        ensures { result ≡ world_shown area.now kinds.now cells.now }
    {
        Blocks { area, kinds, cells }
    }

    /// The box.
    pub fn area(&self) -> &'a WorldBox
        ensures { result.now ≡ self.now.area }
    {
        self.area
    }

    /// The content at a place of the box's list.
    #[tactic(auto, using(crate::proofs::BlocksLemmas::shown_content))]
    pub fn content(&self, index: u32) -> &'a Content
        requires { index < volume self.now.area }
        ensures { result.now ≡ get_or self.now.contents index air_content }
    {
        let Some(content) = self.kinds.entry(self.cells[index as usize]) else {
            unreachable!()
        };
        content
    }

    /// The content at a position. None exactly outside the box.
    pub fn at(&self, p: &Pos) -> Option<&'a Content>
        ensures { MatchOption result (holds self.now.area p.now ≡ false) (λ c. StandsAt self.now p.now c.now) }
    {
        let index = self.area.index_of(*p)?;
        Some(self.content(index))
    }

    /// The state at a position. None, exactly outside the box, stands for air.
    pub fn state_at(&self, p: &Pos) -> Option<&'a BlockState>
        ensures value { unwrap_or (option_copied result) air ≡ state_at self.now p.now }
        ensures there { is_some result ≡ holds self.now.area p.now }
    {
        match self.at(p) {
            None => None,
            Some(content) => Some(&content.state),
        }
    }
}
