//! Widths of packed numbers.
ghost use Rattle.std.specs.Prelude.{◌≡◌, ◌≤◌};
ghost use Rattle.chunk_sections.specs.Packed.{bits_of, least_width};

/// How many bits each of the packed numbers has.
#[derive(Clone, Copy, Debug, PartialEq, Eq)]
pub enum Width {
    Zero,
    One,
    Two,
    Four,
    Eight,
    Twelve,
}

/// The least width at which so many numbers can be told apart, which are at most 4,096.
pub fn width_for(count: u32) -> Width
    requires { count ≤ 4096 }
    ensures { bits_of result ≡ least_width count }
{
    match count {
        0..=1 => Width::Zero,
        2 => Width::One,
        3..=4 => Width::Two,
        5..=16 => Width::Four,
        17..=256 => Width::Eight,
        _ => Width::Twelve,
    }
}
