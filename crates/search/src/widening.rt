ghost use Rattle.shape.specs.Grids.{grid_of};
ghost use Rattle.search.specs.Widening.{WiderBoxLosesNothing};

use shape::heightfield3::HeightField;

/// A box within another gives the other's triangles with some left out, in the same order. Nothing is computed: the contract is
/// the statement.
pub fn wider_box_loses_nothing(_grid: &HeightField<'_>)
    ensures { WiderBoxLosesNothing (grid_of _grid.now) }
{}
