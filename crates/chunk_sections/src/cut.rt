//! How a box is cut into sections of sixteen layers.
ghost use Rattle.std.specs.Prelude.{◌≡◌, ◌<◌, ◌≤◌, ◌+◌, ◌*◌, ◌-◌, ℤ, pos, ◌≤ℤ◌, ◌<ℤ◌, ◌+ℤ◌};
ghost use Rattle.edit_terms.specs.Area.{volume, offset};
ghost use Rattle.edit_terms.specs.Chunk.{column_start};

use edit_terms::{Pos, WorldBox};

/// How many layers of the lowest section's sixteen lie below the box, how many layers it has, and how
/// many blocks a layer has.
#[derive(Clone, Copy, Debug)]
pub(crate) struct Cut {
    pub(crate) skipped: u32,
    pub(crate) layers: u32,
    pub(crate) layer: u32,
}

/// The lowest layer of the sixteen that a position lies in.
fn start_y(p: &Pos) -> i64
    ensures value { result ≡ column_start p.now.y }
    ensures low { result ≤ℤ p.now.y }
    ensures high { p.now.y <ℤ (result +ℤ pos 16) }
{
    i64::from(p.y.div_euclid(16) * 16)
}

/// How many layers of these lie below the position.
fn skipped(p: &Pos) -> u32
    ensures value { result ≡ offset (column_start p.now.y) p.now.y }
    ensures low { result < 16 }
{
    (i64::from(p.y) - start_y(p)) as u32
}

impl Cut {
    ghost use Rattle.chunk_sections.specs.Cut.{cut_of, IsCut, section_count, section_bottom, section_top, section_start, section_size, section_of};

    /// The cut of a box whose layers are as small as a chunk.
    pub(crate) fn of(part: &WorldBox) -> Cut
        requires narrow { part.now.width ≤ 16 }
        requires short { part.now.length ≤ 16 }
        ensures value { result ≡ cut_of part.now }
        ensures fits { IsCut result }
    {
        part.well_formed();
        Cut {
            skipped: skipped(&part.least()),
            layers: part.height(),
            layer: part.width() * part.length(),
        }
    }

    /// How many sections there are.
    pub(crate) fn count(&self) -> u32
        requires { IsCut self.now }
        ensures value { result ≡ section_count self.now }
        ensures few { result ≤ 4097 }
    {
        (self.skipped + self.layers + 15) / 16
    }

    /// The first layer of a section, from the box's lowest.
    fn bottom(&self, section: u32) -> u32
        requires fits { IsCut self.now }
        requires there { section < section_count self.now }
        ensures value { result ≡ section_bottom self.now section }
        ensures within { result ≤ self.now.layers }
    {
        (16 * section).saturating_sub(self.skipped)
    }

    /// The layer behind the last of a section.
    fn top(&self, section: u32) -> u32
        requires fits { IsCut self.now }
        requires there { section < section_count self.now }
        ensures value { result ≡ section_top self.now section }
        ensures order { section_bottom self.now section ≤ result }
        ensures within { result ≤ self.now.layers }
        ensures few { result ≤ section_bottom self.now section + 16 }
    {
        self.layers.min(16 * section + 16 - self.skipped)
    }

    /// The place of a section's first block.
    pub(crate) fn start(&self, section: u32) -> u32
        requires fits { IsCut self.now }
        requires there { section < section_count self.now }
        ensures value { result ≡ section_start self.now section }
    {
        self.bottom(section) * self.layer
    }

    /// How many blocks a section has.
    pub(crate) fn size(&self, section: u32) -> u32
        requires fits { IsCut self.now }
        requires there { section < section_count self.now }
        ensures value { result ≡ section_size self.now section }
        ensures few { result ≤ 4096 }
    {
        (self.top(section) - self.bottom(section)) * self.layer
    }

    /// The section of the block at a place.
    pub(crate) fn section_of(&self, place: u32) -> u32
        requires fits { IsCut self.now }
        requires there { place < self.now.layers * self.now.layer }
        ensures value { result ≡ section_of self.now place }
        ensures there { result < section_count self.now }
        ensures from { section_start self.now result ≤ place }
        ensures to { place < section_start self.now result + section_size self.now result }
    {
        (self.skipped + place / self.layer) / 16
    }
}
