//! The call that tells what a world's file holds.

ghost use Rattle.std.specs.Prelude.{◌≡◌, map, string_bytes, option_map, IfOk, IfErr};
ghost use Rattle.run_ports.specs.Store.{IsLater};
ghost use Rattle.edit_top.specs.Words.{names_view};
ghost use Rattle.edit_top.specs.Reading.{IsWorldCause};
ghost use Rattle.edit_top.specs.Ends.{NothingFailed, IsDoneOrMemory, IsNoFailure, IsPrinted};
ghost use Rattle.edit_top.specs.CheckText.{checked_by, world_alone, check_usage_text};
ghost use Rattle.edit_top.specs.CheckEnds.{CheckEnds, IsGoodCheck, IsFileText};

use crate::answering::print;
use crate::check_text::world_text;
use crate::loading::load_world;
use crate::message::{print_fault, print_message};
use crate::status::Status;
use crate::words::Names;
use run_ports::{Shelf, Sink};
use std::alloc::Global;

/// Reads WORLD and prints its box and how many states its blocks have.
///
/// The words are those after the program's name. All memory is taken before the text is put.
pub fn check<F: Shelf, K: Sink>(
    alloc: Global,
    words: &[String],
    shelf: &mut F,
    out: &mut K,
) -> Status
    // Each ending says what stands after it and why it came.
    ensures ending { CheckEnds (map string_bytes words.now) (F.seen shelf.old) (F.seen shelf.new) (K.seen out.old) (K.seen out.new) result }
    // Good words and a world end well, unless memory or the outside fails.
    ensures complete { IsGoodCheck (map string_bytes words.now) (F.seen shelf.old).files →
        NothingFailed (F.seen shelf.old) (F.seen shelf.new) (K.seen out.old) (K.seen out.new) → IsDoneOrMemory result }
    // Where nothing outside failed, no ending says so.
    ensures faultless { NothingFailed (F.seen shelf.old) (F.seen shelf.new) (K.seen out.old) (K.seen out.new) → IsNoFailure result }
{
    check_words(alloc, words, shelf, out)
}

/// The check.
fn check_words<F: Shelf, K: Sink>(
    alloc: Global,
    words: &[String],
    shelf: &mut F,
    out: &mut K,
) -> Status
    ensures { CheckEnds (map string_bytes words.now) (F.seen shelf.old) (F.seen shelf.new) (K.seen out.old) (K.seen out.new) result }
{
    let Some(names) = checked_by(words) else {
        print_check_usage(out);
        return Status::Usage;
    };
    match file_text(alloc, &names, shelf) {
        Err(status) => {
            print_fault(out, &names, &status);
            status
        }
        Ok(text) => print(out, &text),
    }
}

/// The files that the words `check WORLD` name. None exactly for other words.
fn checked_by(words: &[String]) -> Option<Names<'_>>
    ensures { option_map names_view result ≡ option_map world_alone (checked_by (map string_bytes words.now)) }
{
    let [call, world] = words else {
        return None;
    };
    if call.as_str() != "check" {
        return None;
    }
    Some(Names {
        world: world.as_str(),
        out: "",
        scripts: &[],
    })
}

/// Prints the message where the words aren't of the form.
fn print_check_usage<K: Sink>(out: &mut K)
    ensures { IsPrinted (K.seen out.old) (K.seen out.new) check_usage_text }
{
    print_message(out, &[b"fault: usage: check WORLD\n".as_slice()]);
}

/// The text of the world that the file gives.
fn file_text<F: Shelf>(alloc: Global, names: &Names<'_>, shelf: &mut F) -> Result<Vec<u8>, Status>
    ensures text { IfOk result (λ text. IsFileText (F.seen shelf.old).files (names_view names.now) text.items) }
    ensures cause { IfErr result (IsWorldCause (names_view names.now) (F.seen shelf.old) (F.seen shelf.new)) }
    ensures stays { (F.seen shelf.new).files ≡ (F.seen shelf.old).files }
    ensures later { IsLater (F.seen shelf.old) (F.seen shelf.new) }
{
    let world = load_world(alloc, names, shelf)?;
    let text = world_text(alloc, &world.grid)?;
    Ok(text)
}
