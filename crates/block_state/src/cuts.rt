//! Cutting a text at its separators.
ghost use Rattle.std.specs.Prelude.{◌≡◌, ◌≢◌, ◌==◌, ◌+◌, ◌≤◌, [], ◌∷◌, length, position, MatchOption, IfSome, OnSome};
ghost use Rattle.edit_terms.specs.StateText.{cut_at};

/// The two parts around the one separator. None where it doesn't stand there exactly once.
pub fn two_parts(bytes: &[u8], separator: u8) -> Option<(&[u8], &[u8])>
    ensures { MatchOption result (length (cut_at separator bytes.now) ≢ 2)
        (λ cut. cut_at separator bytes.now ≡ cut.0.now ∷ cut.1.now ∷ []) }
{
    let (first, second) = split_once(bytes, separator)?;
    match split_once(second, separator) {
        None => Some((first, second)),
        Some(_) => None,
    }
}

/// What stands before and behind the first separator. None where there is none.
#[tactic(auto, using(crate::proofs::CutLemmas::cut_whole))]
pub fn split_once(bytes: &[u8], separator: u8) -> Option<(&[u8], &[u8])>
    ensures cases { MatchOption result (cut_at separator bytes.now ≡ bytes.now ∷ [])
        (λ cut. cut_at separator bytes.now ≡ cut.0.now ∷ cut_at separator cut.1.now) }
    ensures sizes { IfSome result (λ cut. length cut.0.now + 1 + length cut.1.now ≡ length bytes.now) }
    ensures several { OnSome result (2 ≤ length (cut_at separator bytes.now)) }
{
    let at = first_place(bytes, separator)?;
    Some((&bytes[..at], &bytes[at + 1..]))
}

fn first_place(bytes: &[u8], byte: u8) -> Option<usize>
    ensures { result ≡ position (λ b. b == byte) bytes.now }
{
    bytes.iter().position(|b| *b == byte)
}
