//! Cases of the files: named tags, block entities and schematics, both ways.
//!
//! The bytes that a case speaks of are spelled by words, as `words.rt` and `pieces.rt` say, and what is read is told
//! by the same words. The answers come from the rules of the formats.
#![tactic(auto)]

mod again;
mod beside;
mod faults;
mod many;
mod pieces;
mod prefixes;
mod schematics;
mod show;
mod tags;
mod words;

use case_lines::{Answer, Cases, run_cases};
use std::alloc::Global;
use std::io;

struct FileCases;

impl Cases for FileCases {
    fn answer(&self, alloc: Global, kind: &str, input: &str, answer: &mut Answer) -> Option<()> {
        match kind {
            "bytes" | "tag" | "again" | "copy" => tags::answer(alloc, kind, input, answer),
            "row" | "row-again" | "read-row" => tags::answer_row(alloc, kind, input, answer),
            "room" => tags::answer_room(input, answer),
            "prefixes" | "file-prefixes" => prefixes::answer(alloc, kind, input, answer),
            "cell" => schematics::answer_cell(alloc, input, answer),
            "beside" => beside::answer(alloc, input, answer),
            "many" => many::answer(alloc, input, answer),
            "schematic" | "file" => schematics::answer(alloc, kind, input, answer),
            _ => again::answer(alloc, kind, input, answer),
        }
    }
}

fn main(rt: HostRuntime) -> io::Result<()> {
    run_cases(&rt, &FileCases)
}
