//! The clipboard: what copies it and what turns it.

ghost use Rattle.std.specs.Prelude.{◌≡◌, ◌<◌, option_map};
ghost use Rattle.edit_terms.specs.declared.clip.Clip as clip;
ghost use Rattle.edit_terms.specs.Transform.{then_turn, then_flip};
ghost use Rattle.run_terms.specs.Session.{selection_of, clip_from, with_copy, with_transform, entered, counted};

use crate::session::Session;
use clipboard_transform::{then_flip, then_turn};
use edit_terms::{Clip, Direction, Source, Transform};

impl Session {
    /// The selection is copied.
    pub(super) fn take_copy(&mut self)
        requires { self.old.number < 10000 }
        ensures { self.new ≡ counted (with_copy self.old) }
    {
        self.clip = self.copied_clip();
        self.number += 1;
    }

    /// The selection is copied by an edit.
    pub(super) fn take_cut(&mut self)
        requires { self.old.number < 10000 }
        ensures { self.new ≡ counted (entered (with_copy self.old)) }
    {
        self.clip = self.copied_clip();
        self.take_edit();
    }

    /// The clipboard is turned by so many quarters.
    pub(super) fn take_rotate(&mut self, quarters: u8)
        requires { self.old.number < 10000 }
        ensures { self.new ≡ counted (with_transform (λ t. then_turn t quarters) self.old) }
    {
        self.clip = self.rotated_clip(quarters);
        self.number += 1;
    }

    /// The clipboard is flipped along a direction.
    pub(super) fn take_flip(&mut self, to: Direction)
        requires { self.old.number < 10000 }
        ensures { self.new ≡ counted (with_transform (λ t. then_flip t to) self.old) }
    {
        self.clip = self.flipped_clip(to);
        self.number += 1;
    }

    /// The clipboard after a copy by the next command. None where there is no selection or no place.
    fn copied_clip(&self) -> Option<Clip>
        ensures { result ≡ clip_from self.now (selection_of self.now) self.now.place }
    {
        let from = self.selection()?;
        let origin = self.place?;
        Some(Clip {
            source: Source {
                player: self.player,
                step: self.number,
            },
            from,
            origin,
            transform: Transform {
                flip_x: false,
                flip_y: false,
                turns: 0,
            },
        })
    }

    fn rotated_clip(&self, quarters: u8) -> Option<Clip>
        ensures { result ≡ option_map (λ (c : clip.Clip). record c { transform = then_turn c.transform quarters }) self.now.clip }
    {
        let clip = self.clip?;
        Some(Clip {
            transform: then_turn(clip.transform, quarters),
            ..clip
        })
    }

    fn flipped_clip(&self, to: Direction) -> Option<Clip>
        ensures { result ≡ option_map (λ (c : clip.Clip). record c { transform = then_flip c.transform to }) self.now.clip }
    {
        let clip = self.clip?;
        Some(Clip {
            transform: then_flip(clip.transform, to),
            ..clip
        })
    }
}
