//! Prints why a file is no script.

ghost use Rattle.std.specs.Prelude.{◌≡◌, ◌∷◌, [], codes, decimal};
ghost use Rattle.edit_top.specs.Ends.{IsPrinted};
ghost use Rattle.edit_top.specs.ScriptFaultText.{term_place, term_text, line_text, script_text, script_line};

use crate::message::print_message;
use crate::state_fault::state_text;
use block_state::TermFault;
use command_syntax::{LineFault, ScriptFault};
use itoa::Buffer;
use run_ports::Sink;

/// Prints the message of a script that is refused.
pub(crate) fn print_script_fault<K: Sink>(out: &mut K, name: &[u8], fault: &ScriptFault)
    ensures { IsPrinted (K.seen out.old) (K.seen out.new) (script_line name.now (script_text fault.now)) }
{
    match fault {
        ScriptFault::NotAscii { byte } => print_not_ascii(out, name, *byte),
        ScriptFault::NoPlayer => print_words(out, name, b"no player"),
        ScriptFault::BadPlayer => print_words(out, name, b"bad player"),
        ScriptFault::TooManyLines => print_words(out, name, b"too many commands"),
        ScriptFault::Line { line, fault } => print_line_fault(out, name, *line, fault),
        ScriptFault::Memory => print_words(out, name, b"memory"),
    }
}

/// Prints why a line is no command.
fn print_line_fault<K: Sink>(out: &mut K, name: &[u8], line: u32, fault: &LineFault)
    ensures { IsPrinted (K.seen out.old) (K.seen out.new) (script_line name.now (codes "line " ∷ decimal line ∷ codes ": " ∷ line_text fault.now)) }
{
    match fault {
        LineFault::OpenQuote => print_line(out, name, line, b"open quote"),
        LineFault::UnknownCommand => print_line(out, name, line, b"unknown command"),
        LineFault::MissingWord => print_line(out, name, line, b"missing word"),
        LineFault::ExtraWord => print_line(out, name, line, b"extra word"),
        LineFault::BadNumber => print_line(out, name, line, b"bad number"),
        LineFault::OutOfLimit => print_line(out, name, line, b"out of limit"),
        LineFault::BadDirection => print_line(out, name, line, b"bad direction"),
        LineFault::BadOption => print_line(out, name, line, b"bad option"),
        LineFault::Term(fault) => print_term_fault(out, name, line, fault),
    }
}

/// Prints why a word of a line is no mask, pattern or state.
fn print_term_fault<K: Sink>(out: &mut K, name: &[u8], line: u32, fault: &TermFault)
    ensures { IsPrinted (K.seen out.old) (K.seen out.new) (script_line name.now (codes "line " ∷ decimal line ∷ codes ": " ∷ term_text fault.now)) }
{
    match fault {
        TermFault::Empty { at } => print_term(out, name, line, *at, b"empty"),
        TermFault::Unknown { at } => print_term(out, name, line, *at, b"unknown"),
        TermFault::State { at, fault } => print_term(out, name, line, *at, state_text(fault)),
        TermFault::Number { at } => print_term(out, name, line, *at, b"number"),
        TermFault::Weight { at } => print_term(out, name, line, *at, b"weight"),
        TermFault::TooManyNoise { at } => print_term(out, name, line, *at, b"too many noise terms"),
        TermFault::TooManyEntries { at } => print_term(out, name, line, *at, b"too many entries"),
        TermFault::Memory => print_line(out, name, line, b"memory"),
    }
}

fn print_words<K: Sink>(out: &mut K, name: &[u8], words: &[u8])
    ensures { IsPrinted (K.seen out.old) (K.seen out.new) (script_line name.now (words.now ∷ [])) }
{
    print_message(
        out,
        &[
            b"fault: script ".as_slice(),
            name,
            b": ".as_slice(),
            words,
            b"\n".as_slice(),
        ],
    );
}

fn print_not_ascii<K: Sink>(out: &mut K, name: &[u8], byte: u32)
    ensures { IsPrinted (K.seen out.old) (K.seen out.new) (script_line name.now (codes "byte " ∷ decimal byte ∷ codes " is not ascii" ∷ [])) }
{
    print_message(
        out,
        &[
            b"fault: script ".as_slice(),
            name,
            b": ".as_slice(),
            b"byte ".as_slice(),
            Buffer::new().format(byte).as_bytes(),
            b" is not ascii".as_slice(),
            b"\n".as_slice(),
        ],
    );
}

fn print_line<K: Sink>(out: &mut K, name: &[u8], line: u32, words: &[u8])
    ensures { IsPrinted (K.seen out.old) (K.seen out.new) (script_line name.now (codes "line " ∷ decimal line ∷ codes ": " ∷ words.now ∷ [])) }
{
    print_message(
        out,
        &[
            b"fault: script ".as_slice(),
            name,
            b": ".as_slice(),
            b"line ".as_slice(),
            Buffer::new().format(line).as_bytes(),
            b": ".as_slice(),
            words,
            b"\n".as_slice(),
        ],
    );
}

fn print_term<K: Sink>(out: &mut K, name: &[u8], line: u32, at: u32, words: &[u8])
    ensures { IsPrinted (K.seen out.old) (K.seen out.new) (script_line name.now (codes "line " ∷ decimal line ∷ codes ": " ∷ term_place at words.now)) }
{
    print_message(
        out,
        &[
            b"fault: script ".as_slice(),
            name,
            b": ".as_slice(),
            b"line ".as_slice(),
            Buffer::new().format(line).as_bytes(),
            b": ".as_slice(),
            b"term at ".as_slice(),
            Buffer::new().format(at).as_bytes(),
            b": ".as_slice(),
            words,
            b"\n".as_slice(),
        ],
    );
}
