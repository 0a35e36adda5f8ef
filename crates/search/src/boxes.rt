ghost use Rattle.std.specs.Float.Ieee.{le, lt, neg};
ghost use Rattle.std.specs.Prelude.{◌≡◌, ◌+◌, ◌-◌, ◌<◌, ◌||◌, not, Bool, Float, fold};
ghost use Rattle.math.specs.Constants.{half};
ghost use Rattle.utils.specs.Errors.{Answers};
ghost use Rattle.math.specs.Lines.{unscaled_by};
ghost use Rattle.quantize.specs.Quantize.{floor_cell, ceil_cell};
ghost use Rattle.search.specs.BoxLists.{box_cell, columns_between, over, under, all_corners, misses, visited};
ghost use Rattle.shape.specs.Flagged.{grid_in, flags_in};
ghost use Rattle.shape.specs.Grids.{grid_of};
ghost use Rattle.shape.specs.Tables.{table_refusal};
ghost use Rattle.search.specs.Triangles.{line_of, line_after, box_corners_at};

use crate::corners::CellCorners;
use crate::triangles::{corners_between, numbered};
use math::aabb::Aabb;
use math::axis::Axis;
use math::lines::unit_line;
use points::cell_search::{axis_position, floor_cell};
use quantize::held::ceil_held;
use shape::heightfield3::HeightField;
use shape::heightfield3::flagged::{FlaggedHeightField, HeightFieldCell};
use shape::heightfield3::has_grid::HasGrid;
use std::ops::Range;
use takers::taker::Taker;
use utils::error::HeightFieldError;

/// The triangles of a heightfield that intersect a box.
pub trait BoxSearch: HasGrid {
    /// Applies the taker `f` to all the triangles of this heightfield intersecting the given Aabb: column by column, rows rising,
    /// the left triangle of a cell before the right one.
    fn map_elements_in_local_aabb<T: Taker>(
        &self,
        flags: &[u8],
        aabb: &Aabb,
        f: &mut T,
    ) -> Result<(), HeightFieldError>
        ensures answer { Answers result (table_refusal (Self.grid self.now) flags.now) (λ _. Unit {0}) }
        ensures added { T.total f.new ≡ fold T.adds (T.total f.old) (visited (Self.grid self.now) flags.now aabb.now) }
        ensures lender { T.place f.new ≡ T.place f.old };
}

impl BoxSearch for HeightField<'_> {
    fn map_elements_in_local_aabb<T: Taker>(
        &self,
        flags: &[u8],
        aabb: &Aabb,
        f: &mut T,
    ) -> Result<(), HeightFieldError> {
        let field = self.with_flags(flags)?;
        if is_missed_by(self, aabb) {
            return Ok(());
        }
        let rows = touched_cells(self.z_axis(), aabb.mins.z, aabb.maxs.z);
        let columns = touched_cells(self.x_axis(), aabb.mins.x, aabb.maxs.x);
        map_cells(&field, aabb, rows, columns, f);
        Ok(())
    }
}

/// Whether a box ends before this heightfield begins, or begins past its end.
fn is_missed_by(grid: &HeightField<'_>, aabb: &Aabb) -> bool
    ensures { result ≡ misses (grid_of grid.now) aabb.now }
{
    are_off(grid.x_axis(), aabb.mins.x, aabb.maxs.x)
        || are_off(grid.z_axis(), aabb.mins.z, aabb.maxs.z)
}

/// Whether the coordinates from `min` to `max` end before the cells of an axis begin, or begin past their end.
fn are_off(axis: Axis, min: f32, max: f32) -> bool
    ensures { result ≡ (not (le (neg half) (unscaled_by axis.scale max)) || lt half (unscaled_by axis.scale min)) }
{
    !(axis.unscaled(max) >= -0.5) || axis.unscaled(min) > 0.5
}

/// The cells of an axis that the coordinates from `min` to `max` touch.
fn touched_cells(axis: Axis, min: f32, max: f32) -> Range<usize>
    ensures first { result.start ≡ ceil_cell (unscaled_by axis.scale min) axis.cells - 1 }
    ensures end { result.end ≡ floor_cell (unscaled_by axis.scale max) axis.cells + 1 }
{
    let first = ceil_held(axis_position(axis, min), axis.cells).saturating_sub(1);
    first..floor_cell(axis, max) + 1
}

/// Hands over the triangles of the cells in these rows and columns, column by column, unless the box passes them.
fn map_cells<T: Taker>(
    field: &FlaggedHeightField<'_, '_, '_>,
    aabb: &Aabb,
    rows: Range<usize>,
    columns: Range<usize>,
    f: &mut T,
)
    ensures added { T.total f.new ≡ fold T.adds (T.total f.old) (columns_between (grid_in field.now) (flags_in field.now) aabb.now rows.start rows.end columns.start columns.end) }
    ensures lender { T.place f.new ≡ T.place f.old }
{
    // The ends are written out, for the loops' invariants name them.
    for j in columns.start..columns.end {
        for i in rows.start..rows.end {
            map_cell(field, aabb, i, j, f);
        }
    }
}

/// Hands over the triangles of a cell, unless it lies over or under the box.
fn map_cell<T: Taker>(
    field: &FlaggedHeightField<'_, '_, '_>,
    aabb: &Aabb,
    i: usize,
    j: usize,
    f: &mut T,
)
    ensures added { T.total f.new ≡ fold T.adds (T.total f.old) (box_cell (grid_in field.now) (flags_in field.now) aabb.now j i) }
    ensures lender { T.place f.new ≡ T.place f.old }
{
    let Ok(cell) = field.cell(i, j) else {
        return;
    };
    if is_over(&cell, aabb) || is_under(&cell, aabb) {
        return;
    }
    let corners = box_corners_at(&cell);
    if let Some(triangle) = numbered(&cell, &corners, true) {
        f.add(triangle);
    }
    if let Some(triangle) = numbered(&cell, &corners, false) {
        f.add(triangle);
    }
}

/// Whether a box ends below all corners of a cell.
fn is_over(cell: &HeightFieldCell<'_, '_>, aabb: &Aabb) -> bool
    ensures { let c = cell.now in let g = grid_of c.grid.now in result ≡ all_corners g c.at.i c.at.j (over g aabb.now) }
{
    let high = aabb.maxs.y / cell.grid().scale().y;
    all_corners(cell, |y| y > high)
}

/// Whether a box begins above all corners of a cell.
fn is_under(cell: &HeightFieldCell<'_, '_>, aabb: &Aabb) -> bool
    ensures { let c = cell.now in let g = grid_of c.grid.now in result ≡ all_corners g c.at.i c.at.j (under g aabb.now) }
{
    let low = aabb.mins.y / cell.grid().scale().y;
    all_corners(cell, |y| y < low)
}

/// Whether the heights at all corners of a cell pass a test.
fn all_corners<F: Fn(f32) -> bool>(cell: &HeightFieldCell<'_, '_>, passes: F) -> bool
    requires { F.IsAlwaysCallable passes }
    ensures { let c = cell.now in (test : Float → Bool) → ((y : Float) (r : Bool) → F.post passes y r → r ≡ test y) → result ≡ all_corners (grid_of c.grid.now) c.at.i c.at.j test }
{
    let grid = cell.grid();
    let (i, j) = cell.index();
    passes(grid.height_at(i, j))
        && passes(grid.height_at(i + 1, j))
        && passes(grid.height_at(i, j + 1))
        && passes(grid.height_at(i + 1, j + 1))
}

/// The corners of a cell as a box search draws them.
// Apart from its lines this is `corners_at`; a function over the lines would be longer than both.
fn box_corners_at(cell: &HeightFieldCell<'_, '_>) -> CellCorners
    ensures { let c = cell.now in result ≡ box_corners_at (grid_of c.grid.now) c.at.i c.at.j }
{
    let (i, j) = cell.index();
    let x = box_lines_at(cell.grid().x_axis(), j);
    let z = box_lines_at(cell.grid().z_axis(), i);
    corners_between(cell, x, z)
}

/// The lines on either side of the cells `k` of an axis as a box search draws them, before they are scaled.
// Unlike `lines_at` it adds a width to the first line, which is rounded otherwise.
fn box_lines_at(axis: Axis, k: usize) -> (f32, f32)
    requires { k < axis.cells }
    ensures { result ≡ (line_of axis.cells k, line_after axis.cells k) }
{
    let width = axis.unit_width();
    let line = unit_line(width, k as f32);
    (line, line + width)
}
