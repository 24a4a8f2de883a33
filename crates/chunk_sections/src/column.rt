//! Columns of a world.
ghost use Rattle.std.specs.Prelude.{◌≡◌, ◌&&◌, ◌==◌, ◌<◌, ◌≤◌, true, false, length, map, get_or, option_map, option_copied, MatchOption};
ghost use Rattle.std.specs.Arc.{arc_value};
ghost use Rattle.std.specs.List.{find};
ghost use Rattle.edit_terms.specs.declared.pos.Pos.{Pos};
ghost use Rattle.edit_terms.specs.Area.{holds, chunk_of, volume, position_of};
ghost use Rattle.edit_terms.specs.Grid.{is_same_pos, entity_of};
ghost use Rattle.edit_terms.specs.World.{air_content, content_at, state_at};
ghost use Rattle.chunk_sections.specs.Cut.{cut_of, section_count};
ghost use Rattle.chunk_sections.specs.Section.{section_words};
ghost use Rattle.chunk_sections.specs.Column.{IsCutUp, column_words, shown_entities, blocks_of, column_world, section_states, state_of_place};

use crate::cut::Cut;
use crate::section::Section;
use edit_terms::{BlockState, Entities, Entity, Pos, WorldBox};
use std::marker::Model;
use std::sync::Arc;

/// What stands at the blocks of one chunk of a world: its states in sections of sixteen layers, and its
/// entities by position.
#[derive(Drop)]
pub struct Column {
    pub(crate) area: WorldBox,
    pub(crate) chunk: u32,
    pub(crate) part: WorldBox,
    pub(crate) sections: Vec<Section>,
    pub(crate) entities: Entities,
}

impl Model for Column {
    ghost use Rattle.chunk_sections.specs.Column.{ColumnContents, IsColumn, kept_contents, shown_entities};

    ghost Value = { ColumnContents };

    ghost view = { λ c. record { area = c.area; chunk = c.chunk; contents = kept_contents c.part c.sections.items (shown_entities c.entities) } };

    ghost invariant = { λ c. IsColumn c.area c.chunk c.part c.sections.items };
}

impl Column {
    /// The box of the world.
    pub fn area(&self) -> &WorldBox
        ensures { result.now ≡ self.now.area }
    {
        &self.area
    }

    /// The number of the chunk in that box.
    pub fn chunk(&self) -> u32
        ensures { result ≡ self.now.chunk }
    {
        self.chunk
    }

    /// The blocks of the chunk, which are a box themselves.
    pub fn blocks(&self) -> &WorldBox
        ensures blocks { result.now ≡ blocks_of self.now }
        ensures cells { (p : Pos) → holds result.now p ≡ (holds self.now.area p && (chunk_of self.now.area p == self.now.chunk)) }
    {
        self.area.well_formed();
        &self.part
    }

    /// The state at a position. None exactly outside the chunk's blocks.
    pub fn get(&self, p: Pos) -> Option<&BlockState>
        ensures { MatchOption result (holds (blocks_of self.now) p ≡ false)
            (λ state. (holds (blocks_of self.now) p ≡ true) × (state.now ≡ state_at (column_world self.now) p)) }
    {
        match self.part.index_of(p) {
            None => None,
            Some(place) => Some(self.state_at(place)),
        }
    }

    /// The state at a place of the chunk's blocks.
    pub(crate) fn state_at(&self, place: u32) -> &BlockState
        requires { place < volume (blocks_of self.now) }
        ensures { result.now ≡ (get_or self.now.contents place air_content).state }
    {
        state_in(&self.part, self.sections.as_slice(), place)
    }

    /// The entity at a place of the chunk's blocks.
    pub(crate) fn shared_entity(&self, place: u32) -> Option<&Arc<Entity>>
        requires { place < volume (blocks_of self.now) }
        ensures { option_map arc_value (option_copied result) ≡ (get_or self.now.contents place air_content).entity }
    {
        let p = self.part.position(place).unwrap();
        shared_entity_of(self.entities.as_slice(), &p)
    }

    /// The position at a place of the chunk's blocks.
    pub(crate) fn position_at(&self, place: u32) -> Pos
        requires { place < volume (blocks_of self.now) }
        ensures { result ≡ position_of (blocks_of self.now) place }
    {
        self.blocks().position(place).unwrap()
    }

    /// The entity at a position. None exactly where the position is outside the chunk's blocks or has none.
    pub fn entity_at(&self, p: Pos) -> Option<&Entity>
        ensures { option_copied result ≡ (content_at (column_world self.now) p).entity }
    {
        if !self.part.holds(p) {
            return None;
        }
        entity_of(self.entities.as_slice(), &p)
    }

    /// A section, counted from the lowest. None exactly past the last.
    pub fn section(&self, number: u32) -> Option<&Section>
        ensures { MatchOption result (section_count (cut_of (blocks_of self.now)) ≤ number)
            (λ section. (number < section_count (cut_of (blocks_of self.now))) × (section.now ≡ section_states self.now number)) }
    {
        self.part.well_formed();
        if number as usize >= self.sections.len() {
            return None;
        }
        Some(&self.sections[number as usize])
    }

    /// The packed words of a section, counted from the lowest. None exactly past the last.
    pub fn packed(&self, number: u32) -> Option<&[u64]>
        ensures { MatchOption result (section_count (cut_of (blocks_of self.now)) ≤ number)
            (λ words. (number < section_count (cut_of (blocks_of self.now))) × (words.now ≡ section_words (section_states self.now number))) }
    {
        match self.section(number) {
            None => None,
            Some(section) => Some(section.words()),
        }
    }

    /// How many words all sections have.
    pub fn words(&self) -> u32
        ensures { result ≡ column_words self.now }
    {
        let mut words = 0;
        for number in 0..self.section_count() {
            words += self.words_of(number);
        }
        words
    }

    /// How many sections there are.
    pub fn section_count(&self) -> u32
        ensures count { result ≡ section_count (cut_of (blocks_of self.now)) }
        ensures few { result ≤ 4097 }
    {
        Cut::of(&self.part).count()
    }

    /// How many words a section has.
    fn words_of(&self, number: u32) -> u32
        requires { number < section_count (cut_of (blocks_of self.now)) }
        ensures words { result ≡ length (section_words (section_states self.now number)) }
        ensures few { result ≤ 4096 }
    {
        self.section(number).unwrap().words().len() as u32
    }
}

/// The state at a place of a box, from the sections of the box.
fn state_in<'a>(part: &WorldBox, sections: &'a [Section], place: u32) -> &'a BlockState
    requires cut { IsCutUp part.now sections.now }
    requires within { place < volume part.now }
    ensures { result.now ≡ state_of_place (cut_of part.now) sections.now place }
{
    let cut = Cut::of(part);
    let number = cut.section_of(place);
    let section = &sections[number as usize];
    section.get(place - cut.start(number))
}

fn entity_of<'a>(list: &'a [(Pos, Arc<Entity>)], p: &Pos) -> Option<&'a Entity>
    ensures { option_copied result ≡ entity_of (shown_entities list.now) p.now }
{
    match placed_at(list, p) {
        None => None,
        Some(placed) => Some(&placed.1),
    }
}

fn shared_entity_of<'a>(list: &'a [(Pos, Arc<Entity>)], p: &Pos) -> Option<&'a Arc<Entity>>
    ensures { option_map arc_value (option_copied result) ≡ entity_of (shown_entities list.now) p.now }
{
    match placed_at(list, p) {
        None => None,
        Some(placed) => Some(&placed.1),
    }
}

fn placed_at<'a>(list: &'a [(Pos, Arc<Entity>)], p: &Pos) -> Option<&'a (Pos, Arc<Entity>)>
    ensures { option_copied result ≡ find (λ e. is_same_pos e.0 p.now) list.now }
{
    list.iter().find(|placed| placed.0 == *p)
}
