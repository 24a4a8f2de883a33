//! Counting numbers.

ghost use Rattle.std.specs.Prelude.{◌≡◌, ℕ, ◌==◌, ◌<◌, ◌^◌, true, nat_lt, length, get_or, count_by, IfOk, replicate};
ghost use Rattle.std.specs.List.{list_all};

use memory::Memory;
use std::alloc::Global;

/// How often each number below `kinds` stands in a list of such numbers.
pub(crate) fn tally(alloc: Global, numbers: &[u32], kinds: usize) -> Result<Vec<u64>, Memory>
    requires below { list_all (λ n. nat_lt n kinds) numbers.now ≡ true }
    requires few { length numbers.now < 2 ^ 63 }
    ensures whole { IfOk result (λ counts. length counts.items ≡ kinds) }
    ensures counts { IfOk result (λ counts. (kind : ℕ) → kind < kinds → get_or counts.items kind 0 ≡ count_by (λ n. n == kind) numbers.now) }
{
    let mut counts = zeros(alloc, kinds)?;
    for number in numbers {
        counts[*number as usize] += 1;
    }
    Ok(counts)
}

fn zeros(alloc: Global, count: usize) -> Result<Vec<u64>, Memory>
    ensures { IfOk result (λ zeros. zeros.items ≡ replicate count 0) }
{
    Ok(vec![in alloc; 0u64; count]?)
}
