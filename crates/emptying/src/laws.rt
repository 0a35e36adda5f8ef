ghost use Rattle.std.specs.Prelude.{ℕ, List};
ghost use Rattle.emptying.specs.ByNumber.{by_number, RisesOverEach};
ghost use Rattle.shape.specs.Grids.{grid_of};

use shape::heightfield3::HeightField;

/// The triangles by rising number are each standing triangle once. Nothing is computed: the contract is the statement.
pub fn numbers_rise_over_each(_grid: &HeightField<'_>)
    ensures { (flags : List ℕ) → RisesOverEach (grid_of _grid.now) flags (by_number (grid_of _grid.now) flags) }
{}
