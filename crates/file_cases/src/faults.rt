//! The texts of faults.

use block_state::StateFault;
use case_lines::Answer;
use nbt_tags::NbtFault;
use sponge_schematic::{Field, WorldFault};

/// The text of a fault of tags. None for a refused allocation.
pub fn tell_nbt(out: &mut Answer, fault: NbtFault) -> Option<()> {
    match fault {
        NbtFault::Short { at } => tell(out, "nbt short at ", at),
        NbtFault::BadType { at } => tell(out, "nbt type at ", at),
        NbtFault::BadCount { at } => tell(out, "nbt count at ", at),
        NbtFault::Duplicate { at } => tell(out, "nbt duplicate at ", at),
        NbtFault::Deep { at } => tell(out, "nbt deep at ", at),
        NbtFault::Trailing { at } => tell(out, "nbt trailing at ", at),
        NbtFault::Memory => {
            out.fail();
            Some(())
        }
    }
}

/// The text of a fault of a world's file. None for a refused allocation.
pub fn tell_world(out: &mut Answer, fault: WorldFault) -> Option<()> {
    match fault {
        WorldFault::Compressed => {
            out.text("compressed");
            Some(())
        }
        WorldFault::NotSchematic => {
            out.text("not a schematic");
            Some(())
        }
        WorldFault::Empty => {
            out.text("empty");
            Some(())
        }
        WorldFault::OutOfRange => {
            out.text("out of range");
            Some(())
        }
        WorldFault::Nbt(fault) => tell_nbt(out, fault),
        WorldFault::Missing(field) => {
            tell_field(out, "missing ", field);
            Some(())
        }
        WorldFault::WrongType(field) => {
            tell_field(out, "wrong type ", field);
            Some(())
        }
        _ => tell_number(out, fault),
    }
}

fn tell_number(out: &mut Answer, fault: WorldFault) -> Option<()> {
    match fault {
        WorldFault::Version(version) => {
            out.text("version ");
            out.number(version);
            Some(())
        }
        WorldFault::TooLarge { volume } => {
            out.text("too large ");
            out.number(volume);
            Some(())
        }
        WorldFault::BadState { index, fault } => {
            tell(out, "palette entry ", index)?;
            out.text(": ");
            tell_state(out, fault);
            Some(())
        }
        _ => tell_data(out, fault),
    }
}

fn tell_data(out: &mut Answer, fault: WorldFault) -> Option<()> {
    match fault {
        WorldFault::BadIndex { cell, value } => {
            tell(out, "cell ", cell)?;
            tell(out, ": no palette number ", value)
        }
        WorldFault::ShortData { cells } => {
            tell(out, "block data short after ", cells)?;
            out.text(" cells");
            Some(())
        }
        WorldFault::LongData { bytes } => {
            tell(out, "block data has ", bytes)?;
            out.text(" bytes too many");
            Some(())
        }
        WorldFault::BadVarint { byte } => tell(out, "bad varint at ", byte),
        _ => {
            out.fail();
            Some(())
        }
    }
}

fn tell_state(out: &mut Answer, fault: StateFault) {
    let text = match fault {
        StateFault::BadName => "bad name",
        StateFault::BadProperty => "bad property",
        StateFault::RepeatedKey => "repeated key",
        StateFault::TooManyProperties => "too many properties",
        StateFault::Memory => {
            out.fail();
            return;
        }
    };
    out.text(text)
}

fn tell(out: &mut Answer, text: &str, number: u32) -> Option<()> {
    out.text(text);
    out.number(number);
    Some(())
}

fn tell_field(out: &mut Answer, text: &str, field: Field) {
    out.text(text);
    out.text(field.name())
}
