use crate::run::Run;
use block_palette::Palette;
use edit_terms::Content;

/// The runs of changes, and the distinct contents that the runs' numbers stand for.
#[derive(Drop)]
pub struct NumberedRuns<'a> {
    /// The contents, each once.
    pub contents: &'a Palette<Content>,
    /// The runs in order.
    pub runs: &'a [Run],
}
