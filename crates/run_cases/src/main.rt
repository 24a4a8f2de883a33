//! Whole runs, checks and drills, from the words and the files to the status, the printed text and the saved file.
//!
//! Worlds and scripts are texts of a line, or files that lie where the program runs. A world's text is spelled out as
//! a file tag by tag, and a saved file is shown as such a text only where that text spells exactly its bytes.
#![tactic(auto)]

mod blocks;
mod checks;
mod disks;
mod drills;
mod endings;
mod entities;
mod files;
mod hex;
mod numbers;
mod outputs;
mod plans;
mod runs;
mod saved;
mod schematics;
mod scripts;
mod steady;
mod stores;
mod tags;
mod words;
mod worlds;

use case_lines::{Answer, is_case, parts_of, tell_case};
use runs::Shown;
use std::alloc::Global;
use std::io::{self, BufRead, BufReader};
use std::rt::Files;
use std::sync::Wait;
use std::thread::Threads;

/// Reads lines to the end, and prints each case whose answer is another, and then `done N` with the number of cases.
///
/// It is the loop of `case_lines::run_cases`, for an answer that needs a runtime which starts threads: a method of a trait
/// knows nothing of such a bound.
fn run_lines<R: Input + Print + AllocGlobal + Threads + Wait + Sync, D: Files>(
    rt: &R,
    disk: &D,
) -> io::Result<()> {
    let alloc = rt.alloc();
    let mut count = 0_u64;
    for line in BufReader::new(alloc, rt.reader())?.lines(alloc) {
        let line = line?;
        if is_case(line.as_str()) {
            count = count.saturating_add(1);
            try_case(rt, disk, line.as_str())?;
        }
    }
    println!(rt; "done {count}")
}

/// Prints the case if its answer is another.
fn try_case<R: Print + AllocGlobal + Threads + Wait + Sync, D: Files>(
    rt: &R,
    disk: &D,
    line: &str,
) -> io::Result<()> {
    let mut found = Answer::new(rt.alloc());
    let answered = answer_line(rt, disk, rt.alloc(), line, &mut found);
    tell_case(rt, line, answered, &found)
}

fn answer_line<R: Threads + Wait + Sync, D: Files>(
    rt: &R,
    disk: &D,
    alloc: Global,
    line: &str,
    found: &mut Answer,
) -> Option<()> {
    let parts = parts_of(line)?;
    answer(rt, disk, alloc, parts.kind, parts.input, found)
}

/// What an input of a kind is answered.
fn answer<R: Threads + Wait + Sync, D: Files>(
    rt: &R,
    disk: &D,
    alloc: Global,
    kind: &str,
    input: &str,
    answer: &mut Answer,
) -> Option<()> {
    match kind {
        "run" => runs::answer(rt, alloc, input, Shown::Blocks, answer),
        "bytes" => runs::answer(rt, alloc, input, Shown::Bytes, answer),
        "counts" => runs::answer(rt, alloc, input, Shown::Counts, answer),
        "same" => runs::answer_same(rt, alloc, input, answer),
        "failing" => runs::answer_failing(rt, alloc, input, answer),
        "steady" => steady::answer(rt, alloc, input, answer),
        "disk" => disks::answer(rt, disk, alloc, input, answer),
        "check" => checks::answer(alloc, input, answer),
        "disk_check" => checks::answer_on_disk(disk, alloc, input, answer),
        "drill" => drills::answer(rt, alloc, input, answer),
        "code" => endings::answer(input, answer),
        _ => outer_answer(disk, alloc, kind, input, answer),
    }
}

/// What stores and outputs by themselves are answered.
fn outer_answer<D: Files>(
    disk: &D,
    alloc: Global,
    kind: &str,
    input: &str,
    answer: &mut Answer,
) -> Option<()> {
    match kind {
        "store" => stores::answer(alloc, input, answer),
        "steady_store" => stores::answer_steady(alloc, input, answer),
        "disk_store" => {
            stores::answer_disk(disk, alloc, input, answer);
            Some(())
        }
        "output" => outputs::answer(alloc, input, answer),
        "no_output" => {
            outputs::answer_none(input, answer);
            Some(())
        }
        _ => None,
    }
}

fn main(rt: HostRuntime) -> io::Result<()> {
    run_lines(&rt, &rt)
}
