use crate::carried::Carried;
use edit_terms::Grid;

/// What a world's file gives: the world, and what the file says beside it.
#[derive(Debug, Drop)]
pub struct World {
    pub grid: Grid,
    pub carried: Carried,
}
