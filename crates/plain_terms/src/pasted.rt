//! What a clipboard has at a relative position, and where it is repeated.
ghost use Rattle.std.specs.Prelude.{◌≡◌, option_map, IfOk};
ghost use Rattle.edit_terms.specs.Clipboard.{clipboard_of, tiled, tile_of};
ghost use Rattle.clipboard_transform.specs.Bounds.{IsOnMap};
ghost use Rattle.plain_terms.specs.Clipboards.{clipboard_shown};

use crate::blocks::Blocks;
use crate::clipboard::Clipboard;
use crate::copied::copied_at;
use crate::restating::turned;
use crate::tile::tile_in;
use clipboard_transform::clip_box;
use edit_terms::{Clip, Content, Pos};
use memory::Memory;
use std::alloc::Global;

impl<'a> Clipboard<'a> {
    /// The clipboard of this clip over the world that it was copied from. The position from which it was
    /// copied is on the map.
    pub fn new(clip: &'a Clip, blocks: &'a Blocks<'a>) -> Clipboard<'a>
        requires { IsOnMap clip.now.origin }
        ensures { clipboard_shown result ≡ clipboard_of clip.now blocks.now }
    {
        Clipboard { clip, blocks }
    }

    /// The content at a relative position, turned; its entity is shared. None exactly where the clipboard
    /// has no block.
    #[tactic(auto, using(crate::proofs::CopyLemmas::copied_nothing, crate::proofs::CopyLemmas::copied_turned))]
    pub fn at(&self, alloc: Global, relative: &Pos) -> Result<Option<Content>, Memory>
        ensures { IfOk result (λ content. content ≡ (clipboard_shown self.now).at relative.now) }
    {
        match copied_at(self.clip, self.blocks, relative) {
            None => Ok(None),
            Some(content) => Ok(Some(turned(alloc, &self.clip.transform, content)?)),
        }
    }

    /// The content at a position of the world where the clipboard is repeated in each direction, and the
    /// old one where the clipboard has none.
    #[tactic(auto, using(crate::proofs::TileLemmas::tiled_nowhere, crate::proofs::TileLemmas::tiled_empty, crate::proofs::TileLemmas::tiled_found))]
    pub fn tiled(&self, alloc: Global, p: &Pos, old: &Content) -> Result<Content, Memory>
        ensures { IfOk result (λ content. content ≡ tiled (clipboard_shown self.now) p.now old.now) }
    {
        let Some(tile) = self.tile(p) else {
            return old.copy(alloc);
        };
        match self.at(alloc, &tile)? {
            None => old.copy(alloc),
            Some(content) => Ok(content),
        }
    }

    /// The relative position that a position of the world has when the bounds are repeated. None exactly
    /// where there are none.
    #[tactic(auto, using(crate::proofs::TileLemmas::no_tile))]
    fn tile(&self, p: &Pos) -> Option<Pos>
        ensures { result ≡ option_map (λ bounds. tile_of bounds p.now) (clipboard_shown self.now).bounds }
    {
        let Some(bounds) = clip_box(self.clip, self.blocks.area()) else {
            return None;
        };
        Some(tile_in(&bounds, p))
    }
}
