//! Counting the states of a world's blocks.

ghost use Rattle.std.specs.Prelude.{◌≡◌, ℕ, List, ◌<◌, ◌^◌, ◌+◌, true, length, nat_lt, Some, IfOk, OnOk};
ghost use Rattle.std.specs.BTreeMap.{IsOrdered};
ghost use Rattle.std.specs.List.{list_all};
ghost use Rattle.std.specs.Map.{update};
ghost use Rattle.std.specs.Str.{bytes_eq};
ghost use Rattle.edit_terms.specs.StateText.{written_state};
ghost use Rattle.edit_terms.specs.Grid.{world_of};
ghost use Rattle.state_counts.specs.Counts.{IsCensus, IsCountedBelow, listed, blocks_of, count_of, key_cmp};

use crate::tally::tally;
use block_state::write_state;
use edit_terms::{BlockState, Grid};
use memory::Memory;
use std::alloc::Global;
use std::collections::BTreeMap;

/// The written texts of the states of a world's blocks in byte order, each with how many blocks have it.
pub fn count_states(alloc: Global, world: &Grid) -> Result<BTreeMap<Vec<u8>, u64>, Memory>
    ensures { IfOk result (λ counts. IsCensus (world_of world.now) (listed counts)) }
{
    let counts = count_kinds(alloc, world.kinds(), world.cells())?;
    Ok(counts)
}

/// The texts of the states of these numbers, each with how many of the numbers stand for it.
fn count_kinds(
    alloc: Global,
    kinds: &[BlockState],
    cells: &[u32],
) -> Result<BTreeMap<Vec<u8>, u64>, Memory>
    requires below { list_all (λ n. nat_lt n (length kinds.now)) cells.now ≡ true }
    requires few { length cells.now < 2 ^ 63 }
    ensures ordered { IfOk result (λ counts. IsOrdered key_cmp counts) }
    ensures counted { IfOk result (λ counts. IsCountedBelow kinds.now cells.now (length kinds.now) counts) }
{
    let blocks = tally(alloc, cells, kinds.len())?;
    let mut counts = BTreeMap::new(alloc);
    for kind in 0..kinds.len() {
        if blocks[kind] > 0 {
            add(alloc, &mut counts, &kinds[kind], blocks[kind])?;
        }
    }
    Ok(counts)
}

/// Counts so many blocks more of a state.
fn add(
    alloc: Global,
    counts: &mut BTreeMap<Vec<u8>, u64>,
    state: &BlockState,
    blocks: u64,
) -> Result<(), Memory>
    requires { count_of counts.old (written_state state.now) + blocks < 2 ^ 64 }
    ensures ordered { OnOk result (IsOrdered key_cmp counts.old → IsOrdered key_cmp counts.new) }
    ensures added { OnOk result ((text : List ℕ) → blocks_of counts.new text ≡ update bytes_eq (blocks_of counts.old) (written_state state.now) (Some (count_of counts.old (written_state state.now) + blocks)) text) }
{
    let text = write_state(alloc, state)?;
    let before = count_of(counts, &text);
    counts.insert(text, before + blocks)?;
    Ok(())
}

/// How many blocks are counted for a text.
fn count_of(counts: &BTreeMap<Vec<u8>, u64>, text: &[u8]) -> u64
    ensures { result ≡ count_of counts.now text.now }
{
    counts.get(text).copied().unwrap_or(0)
}
