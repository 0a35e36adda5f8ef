ghost use Rattle.quantize.specs.Monotone.{CellsAreMonotone, ScalingIsMonotone};
ghost use Rattle.quantize.specs.Quantize.{HeldNumbersAreNext};

/// A held floor is the greatest whole number of its range that is not above the float, a held ceil the least that is not below.
/// Nothing is computed: the contract is the statement.
pub fn held_numbers_are_next()
    ensures { HeldNumbersAreNext }
{}

/// Division by a scale keeps the order of all floats that are no NaN, and so do both cells of a coordinate.
/// Nothing is computed: the contract is the statement.
pub fn cells_are_monotone()
    ensures scaling { ScalingIsMonotone }
    ensures cells { CellsAreMonotone }
{}
