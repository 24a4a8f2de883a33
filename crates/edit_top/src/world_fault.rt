//! Prints why a file is no world.

ghost use Rattle.std.specs.Prelude.{◌≡◌, ◌∷◌, [], codes, decimal};
ghost use Rattle.edit_top.specs.Ends.{IsPrinted};
ghost use Rattle.edit_top.specs.WorldFaultText.{nbt_text, state_text, world_text, world_line};

use crate::message::print_message;
use crate::state_fault::state_text;
use block_state::StateFault;
use itoa::Buffer;
use nbt_tags::NbtFault;
use run_ports::Sink;
use sponge_schematic::WorldFault;

/// Prints the message of a world that is refused.
pub(crate) fn print_world_fault<K: Sink>(out: &mut K, fault: &WorldFault)
    ensures { IsPrinted (K.seen out.old) (K.seen out.new) (world_line (world_text fault.now)) }
{
    match fault {
        WorldFault::Compressed => print_words(out, b"compressed"),
        WorldFault::Nbt(fault) => print_nbt_fault(out, fault),
        WorldFault::NotSchematic => print_words(out, b"not a schematic"),
        WorldFault::Missing(field) => print_named(out, b"missing ", field.name().as_bytes()),
        WorldFault::WrongType(field) => print_named(out, b"wrong type ", field.name().as_bytes()),
        WorldFault::Version(version) => {
            print_named(out, b"version ", Buffer::new().format(*version).as_bytes())
        }
        WorldFault::Empty => print_words(out, b"empty"),
        WorldFault::TooLarge { volume } => {
            print_named(out, b"too large ", Buffer::new().format(*volume).as_bytes())
        }
        WorldFault::OutOfRange => print_words(out, b"out of range"),
        WorldFault::BadState { index, fault } => print_bad_state(out, *index, fault),
        WorldFault::BadIndex { cell, value } => print_bad_index(out, *cell, *value),
        WorldFault::ShortData { cells } => {
            print_counted(out, b"block data short after ", *cells, b" cells")
        }
        WorldFault::LongData { bytes } => {
            print_counted(out, b"block data has ", *bytes, b" bytes too many")
        }
        WorldFault::BadVarint { byte } => print_place(out, b"bad varint at ", *byte),
        WorldFault::Memory => print_words(out, b"memory"),
    }
}

/// Prints why bytes are no named tag.
fn print_nbt_fault<K: Sink>(out: &mut K, fault: &NbtFault)
    ensures { IsPrinted (K.seen out.old) (K.seen out.new) (world_line (nbt_text fault.now)) }
{
    match fault {
        NbtFault::Short { at } => print_place(out, b"nbt short at ", *at),
        NbtFault::BadType { at } => print_place(out, b"nbt type at ", *at),
        NbtFault::BadCount { at } => print_place(out, b"nbt count at ", *at),
        NbtFault::Duplicate { at } => print_place(out, b"nbt duplicate at ", *at),
        NbtFault::Deep { at } => print_place(out, b"nbt deep at ", *at),
        NbtFault::Trailing { at } => print_place(out, b"nbt trailing at ", *at),
        NbtFault::Memory => print_words(out, b"memory"),
    }
}

#[tactic(auto, unfolding(crate::specs::WorldFaultText::world_line))]
fn print_words<K: Sink>(out: &mut K, words: &[u8])
    ensures { IsPrinted (K.seen out.old) (K.seen out.new) (world_line (words.now ∷ [])) }
{
    print_message(
        out,
        &[b"fault: world: ".as_slice(), words, b"\n".as_slice()],
    );
}

#[tactic(auto, unfolding(crate::specs::WorldFaultText::world_line))]
fn print_named<K: Sink>(out: &mut K, words: &[u8], name: &[u8])
    ensures { IsPrinted (K.seen out.old) (K.seen out.new) (world_line (words.now ∷ name.now ∷ [])) }
{
    print_message(
        out,
        &[b"fault: world: ".as_slice(), words, name, b"\n".as_slice()],
    );
}

fn print_place<K: Sink>(out: &mut K, words: &[u8], place: u32)
    ensures { IsPrinted (K.seen out.old) (K.seen out.new) (world_line (words.now ∷ decimal place ∷ [])) }
{
    print_named(out, words, Buffer::new().format(place).as_bytes());
}

#[tactic(auto, unfolding(crate::specs::WorldFaultText::world_line))]
fn print_counted<K: Sink>(out: &mut K, words: &[u8], count: u32, rest: &[u8])
    ensures { IsPrinted (K.seen out.old) (K.seen out.new) (world_line (words.now ∷ decimal count ∷ rest.now ∷ [])) }
{
    print_message(
        out,
        &[
            b"fault: world: ".as_slice(),
            words,
            Buffer::new().format(count).as_bytes(),
            rest,
            b"\n".as_slice(),
        ],
    );
}

/// Prints which palette entry is no block state.
#[tactic(auto, unfolding(crate::specs::WorldFaultText::world_line))]
fn print_bad_state<K: Sink>(out: &mut K, index: u32, fault: &StateFault)
    ensures { IsPrinted (K.seen out.old) (K.seen out.new) (world_line (codes "palette entry " ∷ decimal index ∷ codes ": " ∷ state_text fault.now ∷ [])) }
{
    print_message(
        out,
        &[
            b"fault: world: palette entry ".as_slice(),
            Buffer::new().format(index).as_bytes(),
            b": ".as_slice(),
            state_text(fault),
            b"\n".as_slice(),
        ],
    );
}

/// Prints which block has a number that no palette entry has.
#[tactic(auto, unfolding(crate::specs::WorldFaultText::world_line))]
fn print_bad_index<K: Sink>(out: &mut K, cell: u32, value: u32)
    ensures { IsPrinted (K.seen out.old) (K.seen out.new) (world_line (codes "cell " ∷ decimal cell ∷ codes ": no palette number " ∷ decimal value ∷ [])) }
{
    print_message(
        out,
        &[
            b"fault: world: cell ".as_slice(),
            Buffer::new().format(cell).as_bytes(),
            b": no palette number ".as_slice(),
            Buffer::new().format(value).as_bytes(),
            b"\n".as_slice(),
        ],
    );
}
