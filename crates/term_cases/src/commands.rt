//! What commands are shown as: their words, each in full.

use crate::bytes::put;
use crate::masks::put_mask;
use crate::patterns::put_pattern;
use crate::states::put_state;
use case_lines::Answer;
use edit_terms::{BlockState, Command, Direction, Kind, Mask, Pattern, Pos};
use std::alloc::Global;

/// Puts a command.
pub(crate) fn put_command(alloc: Global, command: &Command, answer: &mut Answer) -> Option<()> {
    match command {
        Command::Pos1 { at } => {
            put_at("//pos1 ", at, answer);
            Some(())
        }
        Command::Pos2 { at } => {
            put_at("//pos2 ", at, answer);
            Some(())
        }
        Command::Place { at } => {
            put_at("at ", at, answer);
            Some(())
        }
        Command::Block { at, state } => {
            put_block(alloc, at, state, answer);
            Some(())
        }
        Command::Set { pattern } => put_fill(alloc, "//set ", pattern, answer),
        Command::Walls { pattern } => put_fill(alloc, "//walls ", pattern, answer),
        Command::Faces { pattern } => put_fill(alloc, "//faces ", pattern, answer),
        Command::Replace { mask, pattern } => put_replace(alloc, mask, pattern, answer),
        Command::Gmask { mask: Some(mask) } => {
            put_gmask(alloc, mask, answer);
            Some(())
        }
        _ => put_shape(alloc, command, answer),
    }
}

fn put_shape(alloc: Global, command: &Command, answer: &mut Answer) -> Option<()> {
    match command {
        Command::Sphere {
            pattern,
            radius,
            hollow,
        } => {
            let word = if *hollow { "//hsphere " } else { "//sphere " };
            put_fill(alloc, word, pattern, answer)?;
            put_number(" ", *radius, answer);
            Some(())
        }
        Command::Cyl {
            pattern,
            radius,
            height,
            hollow,
        } => {
            let word = if *hollow { "//hcyl " } else { "//cyl " };
            put_fill(alloc, word, pattern, answer)?;
            put_number(" ", *radius, answer);
            put_number(" ", *height, answer);
            Some(())
        }
        _ => {
            put_plain(command, answer);
            Some(())
        }
    }
}

/// Puts a command with neither a mask nor a pattern nor a position.
fn put_plain(command: &Command, answer: &mut Answer) {
    match command {
        Command::Sel { kind } => answer.text(kind_text(*kind)),
        Command::Stack { count, to } => put_sent("//stack ", *count, *to, answer),
        Command::Move { count, to } => put_sent("//move ", *count, *to, answer),
        Command::Copy => answer.text("//copy"),
        Command::Cut => answer.text("//cut"),
        Command::Paste { skip_air: false } => answer.text("//paste"),
        Command::Paste { skip_air: true } => answer.text("//paste -a"),
        Command::Rotate { quarters } => put_number("//rotate ", degrees(*quarters), answer),
        Command::Flip { to } => put_toward("//flip", *to, answer),
        Command::Gmask { mask: None } => answer.text("//gmask"),
        Command::Undo { count } => put_number("//undo ", *count, answer),
        Command::Redo { count } => put_number("//redo ", *count, answer),
        _ => answer.fail(),
    }
}

fn degrees(quarters: u8) -> u32 {
    u32::from(quarters) * 90
}

fn put_at(word: &str, at: &Pos, answer: &mut Answer) {
    answer.text(word);
    answer.number(at.x);
    answer.text(",");
    answer.number(at.y);
    answer.text(",");
    answer.number(at.z)
}

fn put_block(alloc: Global, at: &Pos, state: &BlockState, answer: &mut Answer) {
    put_at("block ", at, answer);
    answer.text(" ");
    put_state(alloc, state, answer)
}

fn put_fill(alloc: Global, word: &str, pattern: &Pattern, answer: &mut Answer) -> Option<()> {
    answer.text(word);
    put_pattern(alloc, pattern, answer)
}

fn put_replace(alloc: Global, mask: &Mask, pattern: &Pattern, answer: &mut Answer) -> Option<()> {
    answer.text("//replace \"");
    put_mask(alloc, mask, answer);
    put_fill(alloc, "\" ", pattern, answer)
}

fn put_gmask(alloc: Global, mask: &Mask, answer: &mut Answer) {
    answer.text("//gmask \"");
    put_mask(alloc, mask, answer);
    answer.text("\"")
}

fn put_number(word: &str, number: u32, answer: &mut Answer) {
    answer.text(word);
    answer.number(number)
}

fn put_sent(word: &str, count: u32, to: Direction, answer: &mut Answer) {
    put_number(word, count, answer);
    put_toward("", to, answer)
}

fn put_toward(word: &str, to: Direction, answer: &mut Answer) {
    answer.text(word);
    answer.text(direction_text(to))
}

fn direction_text(to: Direction) -> &'static str {
    match to {
        Direction::North => " north",
        Direction::South => " south",
        Direction::East => " east",
        Direction::West => " west",
        Direction::Up => " up",
        Direction::Down => " down",
    }
}

fn kind_text(kind: Kind) -> &'static str {
    match kind {
        Kind::Cuboid => "//sel cuboid",
        Kind::Sphere => "//sel sphere",
        Kind::Cylinder => "//sel cyl",
    }
}
