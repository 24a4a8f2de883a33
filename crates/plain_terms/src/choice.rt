//! Which entry of a pattern a random word chooses.
ghost use Rattle.std.specs.Prelude.{◌≡◌, ◌+◌, ◌*◌, ◌^◌, ◌<◌, ◌≤◌, nat_lt, length, sum_by, option_copied};
ghost use Rattle.edit_terms.specs.declared.pattern.Entry.{Entry};
ghost use Rattle.edit_terms.specs.Pattern.{chosen_from, chosen_entry};

use edit_terms::Entry;

/// The entry that a random word chooses. None where the weights are 0.
pub(crate) fn chosen_entry(word: u32, entries: &[Entry]) -> Option<&Entry>
    ensures { option_copied result ≡ chosen_entry word entries.now }
{
    chosen_from(word, total_weight(entries), entries)
}

/// The first entry whose running weight sum s has s * 2^32 > word * total.
#[tactic(auto, using(crate::proofs::ChoiceLemmas::passed_by, crate::proofs::ChoiceLemmas::chosen_here))]
fn chosen_from(word: u32, total: u128, entries: &[Entry]) -> Option<&Entry>
    requires { total < 2 ^ 96 }
    ensures { option_copied result ≡ chosen_from word total 0 entries.now }
{
    let mut sum = 0;
    for entry in entries {
        if is_reached(word, total, sum, entry) {
            return Some(entry);
        }
        sum += u128::from(weight_of(entry));
    }
    None
}

/// True exactly where the running sum with this entry's weight is one that the word chooses.
fn is_reached(word: u32, total: u128, sum: u128, entry: &Entry) -> bool
    requires total { total < 2 ^ 96 }
    requires sum { sum < 2 ^ 95 }
    ensures { result ≡ nat_lt (word * total) ((sum + entry.now.weight) * 2 ^ 32) }
{
    u128::from(word) * total < (sum + u128::from(weight_of(entry))) * 4_294_967_296
}

/// The sum of the weights.
fn total_weight(entries: &[Entry]) -> u128
    ensures value { result ≡ sum_by (λ (e : Entry). e.weight) entries.now }
    ensures small { result < 2 ^ 96 }
{
    let mut total = 0;
    for entry in entries {
        total += u128::from(weight_of(entry));
    }
    total
}

fn weight_of(entry: &Entry) -> u32
    ensures { result ≡ entry.now.weight }
{
    entry.weight
}
