//! Cases of what changes of a world are kept in: lists of changes, captured cells, kept changes, palettes, and a world
//! whose blocks are kept by number.
//!
//! Blocks are drawn by letters, as `contents.rt` says, those of a box in index order.
#![tactic(auto)]

mod boxes;
mod canvases;
mod contents;
mod lists;
mod palettes;
mod parts;
mod places;
mod undo;

use case_lines::{Answer, Cases, run_cases};
use std::alloc::Global;
use std::io;

struct ChangeCases;

impl Cases for ChangeCases {
    fn answer(&self, alloc: Global, kind: &str, input: &str, answer: &mut Answer) -> Option<()> {
        match kind {
            "changes" | "between" => lists::answer(alloc, kind, input, answer),
            "afters" | "befores" => lists::answer_places(alloc, kind, input, answer),
            "part" | "sorted" => parts::answer(alloc, kind, input, answer),
            "walked" => parts::answer_walked(alloc, input, answer),
            "stretches" => parts::answer_stretches(alloc, input, answer),
            "cells" | "cells-find" => parts::answer_cells(alloc, kind, input, answer),
            "find" => parts::answer_find(alloc, input, answer),
            "kept" => undo::answer(alloc, input, answer),
            "canvas" | "canvas-at" | "write" => canvases::answer(alloc, kind, input, answer),
            _ => palettes::answer(alloc, kind, input, answer),
        }
    }
}

fn main(rt: HostRuntime) -> io::Result<()> {
    run_cases(&rt, &ChangeCases)
}
