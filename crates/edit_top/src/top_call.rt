//! The call that runs scripts over a world's file.

ghost use Rattle.std.specs.Prelude.{◌≡◌, ◌≤◌, length, map, string_bytes, IfOk, IfErr, All};
ghost use Rattle.run_ports.specs.Store.{IsLater};
ghost use Rattle.edit_top.specs.Words.{names_view, asked_view, IsAskedWithin};
ghost use Rattle.edit_top.specs.Reading.{world_limit};
ghost use Rattle.edit_top.specs.Ends.{workload, Ends, IsStopCause, IsGood, NothingFailed, IsDoneOrMemory, IsNoFailure};
ghost use Rattle.edit_top.specs.Prepared.{IsMade, IsMakeCause, IsPrepared, Finishes};
ghost use Rattle.edit_top.specs.RunText.{run_text};
ghost use Rattle.run_terms.specs.Workload.{workload_of};
ghost use Rattle.run_terms.specs.Reply.{IsOutcome};
ghost use Rattle.edit_terms.specs.Grid.{world_of};
ghost use Rattle.sponge_schematic.specs.Read.{loaded_of, IsWritable};
ghost use Rattle.run_terms.specs.Limits.{IsScriptWithin};

use crate::loading::{load_scripts, load_world};
use crate::message::{print_fault, print_usage};
use crate::outputs::{Output, save_all};
use crate::planning::plan;
use crate::run_text::run_text;
use crate::running::run_scripts;
use crate::status::Status;
use crate::words::{Names, RunWords, Settings, asked_by};
use edit_terms::{Case, Grid, Items, Outcome, Script};
use memory::Memory;
use run_ports::{Gate, Shelf, Sink};
use sponge_schematic::{World, write_world};
use std::alloc::Global;
use std::sync::Wait;
use std::thread::Threads;

/// Reads WORLD and each SCRIPT, runs the scripts, saves the world as OUT and prints each command's reply.
///
/// The words are those after the program's name. The runtime, the job hook and the number of workers
/// serve the threads that later run the jobs.
pub fn run<R: Threads + Wait + Sync, F: Shelf, K: Sink, G: Gate + Sync>(
    _rt: &R,
    alloc: Global,
    words: &[String],
    shelf: &mut F,
    out: &mut K,
    _gate: &G,
) -> Status
    // Each ending says what stands after it and why it came.
    ensures ending { Ends (map string_bytes words.now) (F.seen shelf.old) (F.seen shelf.new) (K.seen out.old) (K.seen out.new) result }
    // Good words and files end well, unless memory or the outside fails.
    ensures complete { IsGood (map string_bytes words.now) (F.seen shelf.old).files →
        NothingFailed (F.seen shelf.old) (F.seen shelf.new) (K.seen out.old) (K.seen out.new) → IsDoneOrMemory result }
    // Where nothing outside failed, no ending says so.
    ensures faultless { NothingFailed (F.seen shelf.old) (F.seen shelf.new) (K.seen out.old) (K.seen out.new) → IsNoFailure result }
{
    run_words(alloc, words, shelf, out)
}

/// The run, on the caller's thread.
fn run_words<F: Shelf, K: Sink>(
    alloc: Global,
    words: &[String],
    shelf: &mut F,
    out: &mut K,
) -> Status
    ensures ending { Ends (map string_bytes words.now) (F.seen shelf.old) (F.seen shelf.new) (K.seen out.old) (K.seen out.new) result }
{
    let Some(asked) = asked_by(words) else {
        print_usage(out);
        return Status::Usage;
    };
    match prepare(alloc, &asked, shelf) {
        Err(status) => {
            print_fault(out, &asked.names, &status);
            status
        }
        Ok(prepared) => finish(&asked.names, prepared, shelf, out),
    }
}

/// Saves the files and prints the text.
fn finish<F: Shelf, K: Sink>(
    names: &Names<'_>,
    prepared: Prepared<'_>,
    shelf: &mut F,
    out: &mut K,
) -> Status
    ensures { Finishes (names_view names.now) prepared.entry (F.seen shelf.old) (F.seen shelf.new) (K.seen out.old) (K.seen out.new) result }
{
    let Prepared { outputs, text } = prepared;
    if let Err(_failed) = save_all(shelf, outputs) {
        print_fault(out, names, &Status::SaveFault);
        return Status::SaveFault;
    }
    match out.put(&text) {
        Ok(()) => Status::Done,
        Err(_failed) => Status::PrintFault,
    }
}

/// What a run has made before its first save: the files to save in order, and the text to print.
#[derive(Drop)]
pub(crate) struct Prepared<'a> {
    pub(crate) outputs: Vec<Output<'a>>,
    pub(crate) text: Vec<u8>,
}

/// Loads and reads the files, plans and runs the scripts, and makes all that is to be saved and printed.
#[tactic(auto, using(crate::proofs::Stops::make_stops))]
fn prepare<'a, F: Shelf>(
    alloc: Global,
    words: &RunWords<'a>,
    shelf: &mut F,
) -> Result<Prepared<'a>, Status>
    requires { IsAskedWithin (asked_view words.now) }
    ensures prepared { IfOk result (IsPrepared (asked_view words.now) (F.seen shelf.old).files) }
    ensures cause { IfErr result (IsStopCause (asked_view words.now) (F.seen shelf.old) (F.seen shelf.new)) }
    ensures stays { (F.seen shelf.new).files ≡ (F.seen shelf.old).files }
    ensures later { IsLater (F.seen shelf.old) (F.seen shelf.new) }
{
    let world = load_world(alloc, &words.names, shelf)?;
    let scripts = load_scripts(alloc, words.names.scripts, shelf)?;
    let prepared = make(alloc, words, world, scripts)?;
    Ok(prepared)
}

/// Plans and runs the scripts over the world, and makes the file and the text.
fn make<'a>(
    alloc: Global,
    words: &RunWords<'a>,
    world: World,
    scripts: Vec<Script>,
) -> Result<Prepared<'a>, Status>
    requires asked { IsAskedWithin (asked_view words.now) }
    requires count { length scripts.items ≡ length words.now.names.scripts.now }
    requires within { All IsScriptWithin scripts.items }
    requires writable { IsWritable world.carried (world_of world.grid) }
    requires few { length world.carried.loose ≤ world_limit }
    ensures made { IfOk result (IsMade (asked_view words.now) (loaded_of world) scripts.items) }
    ensures cause { IfErr result (IsMakeCause (workload (asked_view words.now) (loaded_of world) scripts.items)) }
{
    let World { grid, carried } = world;
    grid.area().well_formed();
    let case = case_of(&words.settings, grid, scripts);
    plan(alloc, &case)?;
    let outcome = run_scripts(alloc, &case)?;
    let text = text_of(alloc, &case, &outcome)?;
    drop(case);
    let bytes = write_world(alloc, &carried, &outcome.world)?;
    let outputs = vec![in alloc;
        Output {
            name: words.names.out,
            bytes
        },
    ]?;
    Ok(Prepared { outputs, text })
}

/// The case of these scripts.
fn case_of(settings: &Settings, opening: Grid, scripts: Vec<Script>) -> Case
    ensures { result ≡ record { opening = opening; scripts = scripts.items; seed = settings.now.seed; depth = settings.now.depth } }
{
    Case {
        opening,
        scripts: Items::from_vec(scripts),
        seed: settings.seed,
        depth: settings.depth,
    }
}

/// The printed text of an outcome.
fn text_of(alloc: Global, case: &Case, outcome: &Outcome) -> Result<Vec<u8>, Memory>
    requires { IsOutcome (workload_of case.now) outcome.now }
    ensures { IfOk result (λ text. text.items ≡ run_text (workload_of case.now) outcome.now.order) }
{
    let scripts = case.scripts.as_slice();
    let order = outcome.order.as_slice();
    let replies = outcome.replies.as_slice();
    run_text(alloc, scripts, order, replies)
}
