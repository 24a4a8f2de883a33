/// A turn of a clipboard: the flips are done first, and then so many quarter turns about y, which count
/// modulo 4.
#[derive(Clone, Copy, Debug, PartialEq, Eq)]
pub struct Transform {
    pub flip_x: bool,
    pub flip_y: bool,
    pub turns: u8,
}
