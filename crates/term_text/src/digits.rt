//! Natural numbers in decimal digits.
ghost use Rattle.std.specs.Prelude.{◌≡◌, ◌^◌, ◌<◌, ◌≤◌, true, if◌then◌else◌, Some, None, IfSome};
ghost use Rattle.std.specs.Char.{is_ascii_digit};
ghost use Rattle.std.specs.List.{list_all};
ghost use Rattle.std.specs.Str.Parse.{digits_value};
ghost use Rattle.run_terms.specs.Limits.{is_one_of};
ghost use Rattle.term_text.specs.Digits.{is_digits, natural_of, natural_between};

/// The number that 1 to `most` digits stand for, from `least` to `greatest`. None for other bytes and other
/// numbers. The first digits may be zeros.
pub fn natural_between(bytes: &[u8], most: usize, least: u64, greatest: u64) -> Option<u64>
    requires { most ≤ 20 }
    ensures value { result ≡ natural_between most least greatest bytes.now }
    ensures within { IfSome result (λ n. is_one_of least greatest n ≡ true) }
    ensures high { IfSome result (λ n. n ≤ greatest) }
{
    if !is_digits(bytes, most) {
        return None;
    }
    if_between(value_of(bytes), least, greatest)
}

fn if_between(value: u128, least: u64, greatest: u64) -> Option<u64>
    ensures value { result ≡ (if is_one_of least greatest value then Some value else None) }
    ensures within { IfSome result (λ n. is_one_of least greatest n ≡ true) }
    ensures high { IfSome result (λ n. n ≤ greatest) }
{
    if least as u128 <= value && value <= greatest as u128 {
        Some(value as u64)
    } else {
        None
    }
}

/// The number that 1 to `most` digits stand for. None for other bytes. The first digits may be zeros.
#[tactic(auto, using(crate::proofs::Numerals::value_short))]
pub fn natural_of(bytes: &[u8], most: usize) -> Option<u128>
    requires { most ≤ 20 }
    ensures value { result ≡ natural_of most bytes.now }
    ensures below { IfSome result (λ n. n < 10 ^ most) }
{
    if is_digits(bytes, most) {
        Some(value_of(bytes))
    } else {
        None
    }
}

fn value_of(digits: &[u8]) -> u128
    requires { is_digits 20 digits.now ≡ true }
    ensures { result ≡ digits_value 10 digits.now }
{
    let mut value = 0;
    for digit in digits {
        value = value * 10 + (*digit - b'0') as u128;
    }
    value
}

fn is_digits(bytes: &[u8], most: usize) -> bool
    ensures { result ≡ is_digits most bytes.now }
{
    !bytes.is_empty() && bytes.len() <= most && are_digits(bytes)
}

fn are_digits(bytes: &[u8]) -> bool
    ensures { result ≡ list_all is_ascii_digit bytes.now }
{
    bytes.iter().all(|b| b.is_ascii_digit())
}
