//! The kinds of tags, between a type byte and the payload that follows it.

ghost use Rattle.std.specs.Prelude.{◌≡◌};
ghost use Rattle.nbt_tags.specs.Kinds.{kind_of};

/// What a type byte from 1 to 12 stands for.
#[derive(Clone, Copy, Debug, PartialEq, Eq)]
pub enum Kind {
    Byte,
    Short,
    Int,
    Long,
    Float,
    Double,
    ByteArray,
    Str,
    List,
    Compound,
    IntArray,
    LongArray,
}

/// The kind of a type byte. The byte 0 ends a compound, and those above 12 stand for nothing.
#[tactic(auto, unfolding(crate::specs::Kinds::kind_of))]
pub fn kind_of(byte: u8) -> Option<Kind>
    ensures { result ≡ kind_of byte }
{
    match byte {
        1 => Some(Kind::Byte),
        2 => Some(Kind::Short),
        3 => Some(Kind::Int),
        4 => Some(Kind::Long),
        5 => Some(Kind::Float),
        6 => Some(Kind::Double),
        7 => Some(Kind::ByteArray),
        8 => Some(Kind::Str),
        9 => Some(Kind::List),
        10 => Some(Kind::Compound),
        11 => Some(Kind::IntArray),
        12 => Some(Kind::LongArray),
        _ => None,
    }
}
