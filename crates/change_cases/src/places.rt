//! Lists of cells by their places.

use crate::boxes::{tell_between, tell_box, tell_position};
use crate::contents::tell_letter;
use case_lines::Answer;
use edit_terms::{CellList, Stretch};

/// In how many stretches of one content a list is walked.
pub fn stretches<L: CellList>(list: &L) -> u32 {
    let mut count = 0;
    let mut i = 0;
    while i < list.len() {
        i += list.reach(i);
        count += 1;
    }
    count
}

/// Puts each cell behind an answer: its position, its content, and how far the list is told to go on with it.
pub fn tell_places<L: CellList>(answer: &mut Answer, list: &L) {
    answer.number(list.len());
    for i in 0..list.len() {
        tell_place(answer, list, i);
    }
    if list.entity(list.len()).is_some() {
        answer.text("; an entity behind the list");
    }
}

fn tell_place<L: CellList>(answer: &mut Answer, list: &L, i: u32) {
    if i >= list.len() {
        answer.fail();
        return;
    }
    tell_between(answer, "; ");
    tell_position(answer, &list.at(i));
    answer.text(" ");
    tell_letter(answer, list.state(i), list.entity(i));
    answer.text(" ");
    answer.number(list.reach(i))
}

/// Puts behind an answer what each place of a list goes on with: the box, the place in it and how many blocks, or
/// `none`.
pub fn tell_stretches<L: CellList>(answer: &mut Answer, list: &L) {
    for i in 0..list.len() {
        if i > 0 {
            answer.text("; ");
        }
        tell_stretch_at(answer, list, i);
    }
}

fn tell_stretch_at<L: CellList>(answer: &mut Answer, list: &L, i: u32) {
    if i >= list.len() {
        answer.fail();
        return;
    }
    match list.stretch(i) {
        None => answer.text("none"),
        Some(stretch) => tell_stretch(answer, &stretch),
    }
}

fn tell_stretch(answer: &mut Answer, stretch: &Stretch) {
    tell_box(answer, &stretch.part);
    answer.text(" ");
    answer.number(stretch.start);
    answer.text("+");
    answer.number(stretch.count)
}
