//! What is printed of a text that stands for no block state.

ghost use Rattle.std.specs.Prelude.{◌≡◌};
ghost use Rattle.edit_top.specs.WorldFaultText.{state_text};

use block_state::StateFault;

/// Why a text stands for no block state.
pub(crate) fn state_text(fault: &StateFault) -> &'static [u8]
    ensures { result.now ≡ state_text fault.now }
{
    match fault {
        StateFault::BadName => b"bad name",
        StateFault::BadProperty => b"bad property",
        StateFault::RepeatedKey => b"repeated key",
        StateFault::TooManyProperties => b"too many properties",
        StateFault::Memory => b"memory",
    }
}
