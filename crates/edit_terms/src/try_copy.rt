ghost use Rattle.std.specs.Prelude.{◌≡◌, IfOk};

use memory::Memory;
use std::alloc::Global;

/// What can be copied, if memory is left. The copy may share what it holds with the original.
pub trait TryCopy: Sized {
    /// The same value once more.
    fn try_copy(&self, alloc: Global) -> Result<Self, Memory>
        ensures { IfOk result (λ copied. copied ≡ self.now) };
}
