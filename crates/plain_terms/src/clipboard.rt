//! A clipboard.
ghost use Rattle.clipboard_transform.specs.Bounds.{IsOnMap};

use crate::blocks::Blocks;
use edit_terms::Clip;

/// What a player's clipboard has: the clip, and the world that it was copied from. The position from which
/// it was copied is on the map.
#[derive(Drop)]
pub struct Clipboard<'a> {
    pub(crate) clip: &'a Clip,
    pub(crate) blocks: &'a Blocks<'a>,
    ghost from: { IsOnMap clip.now.origin },
}
