//! The numbers of `rotation`.
ghost use Rattle.std.specs.Prelude.{◌≡◌, ◌<◌, IfSome, bytes_eq};
ghost use Rattle.std.specs.List.{find, range_with_len};
ghost use Rattle.edit_terms.specs.Transform.{decimal_of};

/// The numbers 0 to 15, as they are written.
static DECIMALS: [&[u8]; 16] = [
    b"0", b"1", b"2", b"3", b"4", b"5", b"6", b"7", b"8", b"9", b"10", b"11", b"12", b"13", b"14",
    b"15",
];

/// The number that a text is written for. None where it is none from 0 to 15.
pub(crate) fn number_of(text: &[u8]) -> Option<usize>
    ensures number { result ≡ find (λ r. bytes_eq (decimal_of r) text.now) (range_with_len 0 16) }
    ensures below { IfSome result (λ r. r < 16) }
{
    (0..16).find(|number| decimal(*number) == text)
}

/// How a number below 16 is written.
pub(crate) fn decimal(number: usize) -> &'static [u8]
    requires { number < 16 }
    ensures { result.now ≡ decimal_of number }
{
    DECIMALS[number]
}
