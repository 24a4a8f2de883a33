/// What a transform is made of: a quarter turn about y, and flips along x and y.
#[derive(Clone, Copy)]
pub(crate) enum Motion {
    QuarterTurn,
    FlipX,
    FlipY,
}
