ghost use Rattle.std.specs.Prelude.{◌≡◌};
ghost use Rattle.math.specs.Lines.{unscaled_by};
ghost use Rattle.quantize.specs.Quantize.{floor_cell, position as position_of};
ghost use Rattle.points.specs.Points.{on_grid, closest_cell, cell_at, unclamped_cell, first_cell, end_cell, box_ranges};

use math::aabb::Aabb;
use math::axis::Axis;
use math::vector::Vector;
use quantize::held::{ceil_unclamped, floor_held, floor_unclamped, position};
use shape::heightfield3::HeightField;
use shape::heightfield3::has_grid::HasGrid;
use std::ops::Range;

/// From a point or a box to the cells of a heightfield.
pub trait CellSearch: HasGrid {
    /// The pair of index of the cell closest to the vertical projection of the given point.
    fn closest_cell_at_point(&self, pt: Vector) -> (usize, usize)
        ensures { result ≡ closest_cell (Self.grid self.now) pt };

    /// The pair of index of the cell containing the vertical projection of the given point.
    fn cell_at_point(&self, pt: Vector) -> Option<(usize, usize)>
        ensures { result ≡ cell_at (Self.grid self.now) pt };

    /// The pair of index of the cell containing the vertical projection of the given point, on the heightfield or off it.
    fn unclamped_cell_at_point(&self, pt: Vector) -> (isize, isize)
        ensures { result ≡ unclamped_cell (Self.grid self.now) pt };

    /// The range of segment ids that may intersect the given local Aabb: of rows, then of columns.
    fn unclamped_elements_range_in_local_aabb(&self, aabb: &Aabb) -> (Range<isize>, Range<isize>)
        ensures { (result.0.start, result.0.end, result.1.start, result.1.end) ≡ box_ranges (Self.grid self.now) aabb.now };
}

impl CellSearch for HeightField<'_> {
    fn closest_cell_at_point(&self, pt: Vector) -> (usize, usize) {
        let j = floor_cell(self.x_axis(), pt.x);
        let i = floor_cell(self.z_axis(), pt.z);
        (i, j)
    }

    fn cell_at_point(&self, pt: Vector) -> Option<(usize, usize)> {
        if on_grid(self.x_axis().unscaled(pt.x)) && on_grid(self.z_axis().unscaled(pt.z)) {
            Some(self.closest_cell_at_point(pt))
        } else {
            None
        }
    }

    fn unclamped_cell_at_point(&self, pt: Vector) -> (isize, isize) {
        let j = floor_unclamped(axis_position(self.x_axis(), pt.x));
        let i = floor_unclamped(axis_position(self.z_axis(), pt.z));
        (i, j)
    }

    fn unclamped_elements_range_in_local_aabb(&self, aabb: &Aabb) -> (Range<isize>, Range<isize>) {
        let rows = cells_between(self.z_axis(), aabb.mins.z, aabb.maxs.z);
        let columns = cells_between(self.x_axis(), aabb.mins.x, aabb.maxs.x);
        (rows, columns)
    }
}

/// The cell of an axis that is closest to a coordinate.
pub fn floor_cell(axis: Axis, v: f32) -> usize
    ensures { result ≡ floor_cell (unscaled_by axis.scale v) axis.cells }
{
    floor_held(axis_position(axis, v), axis.cells - 1)
}

/// Where a coordinate lies among the cells of an axis.
pub fn axis_position(axis: Axis, v: f32) -> f32
    ensures { result ≡ position_of (unscaled_by axis.scale v) axis.cells }
{
    position(axis.unscaled(v), axis.unit_width())
}

/// The range of cells of an axis that may intersect the coordinates from `min` to `max`.
fn cells_between(axis: Axis, min: f32, max: f32) -> Range<isize>
    ensures first { result.start ≡ first_cell (position_of (unscaled_by axis.scale min) axis.cells) }
    ensures end { result.end ≡ end_cell (position_of (unscaled_by axis.scale max) axis.cells) }
{
    first_cell(axis_position(axis, min))..end_cell(axis_position(axis, max))
}

/// One below the first line at the position or past it; 0 for a NaN.
// It and the next differ in the rounding and in the step: one function for both would take these as arguments.
fn first_cell(position: f32) -> isize
    ensures { result ≡ first_cell position }
{
    if position.is_nan() {
        0
    } else {
        ceil_unclamped(position).saturating_sub(1)
    }
}

/// One above the cell at the position; 0 for a NaN.
fn end_cell(position: f32) -> isize
    ensures { result ≡ end_cell position }
{
    if position.is_nan() {
        0
    } else {
        floor_unclamped(position).saturating_add(1)
    }
}

/// Whether a coordinate without its scale lies on the grid. A NaN does not.
fn on_grid(v: f32) -> bool
    ensures { result ≡ on_grid v }
{
    v >= -0.5 && v <= 0.5
}
