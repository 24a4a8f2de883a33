ghost use Rattle.std.specs.Prelude.{◌≡◌, ◌++◌, OnOk};

use itoa::{Buffer, Integer};
use memory::Memory;
use std::alloc::Global;

/// Puts a text behind bytes.
pub fn push_text(bytes: &mut Vec<u8>, text: &str) -> Result<(), Memory>
    ensures { OnOk result (bytes.new.items ≡ bytes.old.items ++ text.now) }
{
    bytes.extend_from_slice(text.as_bytes())?;
    Ok(())
}

/// Puts a number behind bytes, in decimal.
pub fn push_number<I: Integer>(bytes: &mut Vec<u8>, number: I) -> Result<(), Memory>
    ensures { OnOk result (bytes.new.items ≡ bytes.old.items ++ I.text number) }
{
    let mut buffer = Buffer::new();
    bytes.extend_from_slice(buffer.format(number).as_bytes())?;
    Ok(())
}

/// A script whose lines are the parts of a text between ` | `.
pub fn script_of(alloc: Global, text: &str) -> Result<Vec<u8>, Memory> {
    let mut script = Vec::new(alloc);
    for line in text.split(" | ") {
        script.extend_from_slice(line.as_bytes())?;
        script.push(b'\n')?;
    }
    Ok(script)
}
