ghost use Rattle.shape.specs.Grids.{Grid, grid_of};

use super::HeightField;

/// What has a heightfield, of which the methods of a trait speak.
pub trait HasGrid {
    /// The heightfield.
    ghost grid: { Self → Grid };
}

impl HasGrid for HeightField<'_> {
    ghost grid = { λ g. grid_of g };
}
