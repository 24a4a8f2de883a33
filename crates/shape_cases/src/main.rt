//! Cases of boxes and shapes: blocks, chunks, regions, worlds and turned positions.
//!
//! A position is `X,Y,Z`, and a box `WIDTH,HEIGHT,LENGTH@X,Y,Z` with its least corner.
#![tactic(auto)]

mod boxes;
mod clips;
mod grids;
mod regions;
mod rows;
mod turns;
mod words;

use case_lines::{Answer, Cases, run_cases};
use std::alloc::Global;
use std::io;

struct ShapeCases;

impl Cases for ShapeCases {
    fn answer(&self, alloc: Global, kind: &str, input: &str, answer: &mut Answer) -> Option<()> {
        of_boxes(alloc, kind, input, answer)
    }
}

/// Cases of boxes and worlds, and others.
fn of_boxes(alloc: Global, kind: &str, input: &str, answer: &mut Answer) -> Option<()> {
    match kind {
        "box" => boxes::made(input, answer),
        "index" => boxes::index(input, answer),
        "block" => boxes::block(input, answer),
        "chunk" => boxes::chunk(input, answer),
        "chunks" => boxes::chunks(alloc, input, answer),
        "grid" => grids::grid(alloc, input, answer),
        "cell" => grids::cell(alloc, input, answer),
        "entities" => grids::entities(alloc, input, answer),
        _ => of_regions(alloc, kind, input, answer),
    }
}

/// Cases of regions, and others.
fn of_regions(alloc: Global, kind: &str, input: &str, answer: &mut Answer) -> Option<()> {
    match kind {
        "inside" => regions::inside(input, answer),
        "bounds" => regions::bounds_of(input, answer),
        "count" => rows::count(input, answer),
        "rows" => rows::rows_of(input, answer),
        "agree" => rows::agree(alloc, input, answer),
        _ => of_turns(kind, input, answer),
    }
}

/// Cases of turned positions and clipboards.
fn of_turns(kind: &str, input: &str, answer: &mut Answer) -> Option<()> {
    match kind {
        "moves" => turns::moves(input, answer),
        "turn" => turns::turn(input, answer),
        "turns" => turns::turns(input, answer),
        "flip" => turns::flip(input, answer),
        "flips" => turns::flips(input, answer),
        "clip" => clips::clip(input, answer),
        _ => None,
    }
}

fn main(rt: HostRuntime) -> io::Result<()> {
    run_cases(&rt, &ShapeCases)
}
