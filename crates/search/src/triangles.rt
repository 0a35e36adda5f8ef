ghost use Rattle.std.specs.Option.{option_map};
ghost use Rattle.std.specs.Prelude.{◌≡◌, ◌+◌, ◌<◌, true, false};
ghost use Rattle.utils.specs.Errors.{Answers};
ghost use Rattle.shape.specs.Grids.{grid_of};
ghost use Rattle.shape.specs.Tables.{table_refusal, pattern_of};
ghost use Rattle.search.specs.BoxLists.{numbered_of};
ghost use Rattle.search.specs.Corners.{triangle_of};
ghost use Rattle.search.specs.Triangles.{scaled_by, line_of, corners_between, corners_at, triangle_at, triangle_by_id};

use crate::corners::CellCorners;
use math::axis::Axis;
use math::lines::unit_line;
use math::triangle::Triangle;
use math::vector::Vector;
use shape::heightfield3::HeightField;
use shape::heightfield3::flagged::HeightFieldCell;
use shape::heightfield3::has_grid::HasGrid;
use takers::triangle::NumberedTriangle;
use utils::error::HeightFieldError;

/// The triangles of a heightfield.
pub trait Triangles: HasGrid {
    /// The two triangles at the cell (i, j) of this heightfield.
    ///
    /// Returns `None` for triangles that have been removed because of their user-defined status
    /// flags (described by the `HeightFieldCellStatus` bitfield).
    fn triangles_at(
        &self,
        flags: &[u8],
        i: usize,
        j: usize,
    ) -> Result<(Option<Triangle>, Option<Triangle>), HeightFieldError>
        ensures { let g = Self.grid self.now in Answers result (table_refusal g flags.now) (λ v. v ≡ (triangle_at g flags.now i j true, triangle_at g flags.now i j false)) };

    /// Gets the vertices of the triangle identified by `id`.
    fn triangle_at_id(&self, flags: &[u8], id: u32) -> Result<Option<Triangle>, HeightFieldError>
        ensures { let g = Self.grid self.now in Answers result (table_refusal g flags.now) (λ v. v ≡ triangle_by_id g flags.now id) };
}

impl Triangles for HeightField<'_> {
    fn triangles_at(
        &self,
        flags: &[u8],
        i: usize,
        j: usize,
    ) -> Result<(Option<Triangle>, Option<Triangle>), HeightFieldError> {
        let Ok(cell) = self.with_flags(flags)?.cell(i, j) else {
            return Ok((None, None));
        };
        if cell.pattern(true).is_none() && cell.pattern(false).is_none() {
            return Ok((None, None));
        }
        let corners = corners_at(&cell);
        let left = drawn(&cell, &corners, true);
        let right = drawn(&cell, &corners, false);
        Ok((left, right))
    }

    fn triangle_at_id(&self, flags: &[u8], id: u32) -> Result<Option<Triangle>, HeightFieldError> {
        let (i, j, left) = self.size().split_triangle_id(id);
        let Ok(cell) = self.with_flags(flags)?.cell(i, j) else {
            return Ok(None);
        };
        if cell.pattern(left).is_none() {
            return Ok(None);
        }
        Ok(drawn(&cell, &corners_at(&cell), left))
    }
}

/// The left or right triangle of a cell with these corners, if it stands.
fn drawn(cell: &HeightFieldCell<'_, '_>, corners: &CellCorners, left: bool) -> Option<Triangle>
    ensures { result ≡ option_map (λ z. triangle_of corners.now z left) (pattern_of cell.now.status.0 left) }
{
    let zigzag = cell.pattern(left)?;
    Some(corners.triangle(zigzag, left))
}

/// The left or right triangle of a cell with these corners and its number, if it stands.
pub fn numbered(
    cell: &HeightFieldCell<'_, '_>,
    corners: &CellCorners,
    left: bool,
) -> Option<NumberedTriangle>
    ensures { let c = cell.now in result ≡ numbered_of (grid_of c.grid.now) corners.now c.at.i c.at.j left (pattern_of c.status.0 left) }
{
    let triangle = drawn(cell, corners, left)?;
    let id = cell.triangle_id(left);
    Some(NumberedTriangle { id, triangle })
}

/// The corners of a cell, each on its own lines.
pub fn corners_at(cell: &HeightFieldCell<'_, '_>) -> CellCorners
    ensures { let c = cell.now in result ≡ corners_at (grid_of c.grid.now) c.at.i c.at.j }
{
    let (i, j) = cell.index();
    let x = lines_at(cell.grid().x_axis(), j);
    let z = lines_at(cell.grid().z_axis(), i);
    corners_between(cell, x, z)
}

/// The lines on either side of the cells `k` of an axis, before they are scaled.
fn lines_at(axis: Axis, k: usize) -> (f32, f32)
    requires { k < axis.cells }
    ensures { result ≡ (line_of axis.cells k, line_of axis.cells (k + 1)) }
{
    let width = axis.unit_width();
    (unit_line(width, k as f32), unit_line(width, (k + 1) as f32))
}

/// The corners of a cell between two lines along `x` and two along `z`.
pub(crate) fn corners_between(
    cell: &HeightFieldCell<'_, '_>,
    x: (f32, f32),
    z: (f32, f32),
) -> CellCorners
    ensures { let c = cell.now in result ≡ corners_between (grid_of c.grid.now) c.at.i c.at.j x.0 x.1 z.0 z.1 }
{
    let grid = cell.grid();
    let (i, j) = cell.index();
    CellCorners {
        p00: scaled(grid, x.0, grid.height_at(i, j), z.0),
        p10: scaled(grid, x.0, grid.height_at(i + 1, j), z.1),
        p01: scaled(grid, x.1, grid.height_at(i, j + 1), z.0),
        p11: scaled(grid, x.1, grid.height_at(i + 1, j + 1), z.1),
    }
}

/// A point with the scale factor applied.
fn scaled(grid: &HeightField<'_>, x: f32, y: f32, z: f32) -> Vector
    ensures { result ≡ scaled_by (grid_of grid.now).scale x y z }
{
    Vector::new(x * grid.scale().x, y * grid.scale().y, z * grid.scale().z)
}
