ghost use Rattle.std.specs.Float.{binary32};
ghost use Rattle.std.specs.Float.Ieee.{of_int};
ghost use Rattle.std.specs.Prelude.{◌≡◌, pos};
ghost use Rattle.utils.specs.Errors.{Answers};
ghost use Rattle.math.specs.Lines.{unit_width, cell_width, line_at, line_refusal, signed_line_refusal};
ghost use Rattle.shape.specs.Grids.{grid_of, height_at};

use super::HeightField;
use math::aabb::Aabb;
use math::axis::Axis;
use math::vector::Vector;
use numbering::size::GridSize;
use utils::error::HeightFieldError;

impl HeightField<'_> {
    /// The number of rows of this heightfield.
    pub fn nrows(&self) -> usize
        ensures { result ≡ (grid_of self.now).rows }
    {
        self.size.nrows()
    }

    /// The number of columns of this heightfield.
    pub fn ncols(&self) -> usize
        ensures { result ≡ (grid_of self.now).columns }
    {
        self.size.ncols()
    }

    /// The number of cells of this heightfield along each dimension.
    pub fn num_cells_ij(&self) -> (usize, usize)
        ensures { let g = grid_of self.now in result ≡ (g.rows, g.columns) }
    {
        (self.nrows(), self.ncols())
    }

    /// The numbers of rows and columns of this heightfield's cells, by which its features are numbered.
    pub fn size(&self) -> GridSize
        ensures { result ≡ self.now.size }
    {
        self.size
    }

    /// The height of the grid point `(i, j)`, before it is scaled; NaN off the grid.
    pub fn height_at(&self, i: usize, j: usize) -> f32
        ensures { result ≡ height_at (grid_of self.now) i j }
    {
        self.heights.get(i, j).unwrap_or(f32::NAN)
    }

    /// The scale factor applied to this heightfield.
    pub fn scale(&self) -> Vector
        ensures { result ≡ (grid_of self.now).scale }
    {
        self.scale
    }

    /// The [`Aabb`] of this heightmap.
    pub fn root_aabb(&self) -> Aabb
        ensures { result ≡ (grid_of self.now).box }
    {
        self.aabb
    }

    /// The `x` axis of this heightfield, along which its columns lie.
    pub fn x_axis(&self) -> Axis
        ensures { let g = grid_of self.now in (result.cells ≡ g.columns) × (result.scale ≡ g.scale.x) }
    {
        Axis {
            cells: self.ncols(),
            scale: self.scale.x,
        }
    }

    /// The `z` axis of this heightfield, along which its rows lie.
    pub fn z_axis(&self) -> Axis
        ensures { let g = grid_of self.now in (result.cells ≡ g.rows) × (result.scale ≡ g.scale.z) }
    {
        Axis {
            cells: self.nrows(),
            scale: self.scale.z,
        }
    }

    /// The width (extent along its local `x` axis) of each cell of this heightmap, excluding the scale factor.
    pub fn unit_cell_width(&self) -> f32
        ensures { result ≡ unit_width (of_int binary32 (pos (grid_of self.now).columns)) }
    {
        self.x_axis().unit_width()
    }

    /// The height (extent along its local `z` axis) of each cell of this heightmap, excluding the scale factor.
    pub fn unit_cell_height(&self) -> f32
        ensures { result ≡ unit_width (of_int binary32 (pos (grid_of self.now).rows)) }
    {
        self.z_axis().unit_width()
    }

    /// The width (extent along its local `x` axis) of each cell of this heightmap, including the scale factor.
    pub fn cell_width(&self) -> f32
        ensures { let g = grid_of self.now in result ≡ cell_width g.columns g.scale.x }
    {
        self.x_axis().width()
    }

    /// The height (extent along its local `z` axis) of each cell of this heightmap, including the scale factor.
    pub fn cell_height(&self) -> f32
        ensures { let g = grid_of self.now in result ≡ cell_width g.rows g.scale.z }
    {
        self.z_axis().width()
    }

    /// The smallest x coordinate of the `j`-th column of this heightfield.
    pub fn x_at(&self, j: usize) -> Result<f32, HeightFieldError>
        ensures { let g = grid_of self.now in Answers result (line_refusal g.columns j) (λ x. x ≡ line_at g.columns (pos j) g.scale.x) }
    {
        self.x_axis().line_at(j)
    }

    /// The smallest z coordinate of the start of the `i`-th row of this heightfield.
    pub fn z_at(&self, i: usize) -> Result<f32, HeightFieldError>
        ensures { let g = grid_of self.now in Answers result (line_refusal g.rows i) (λ z. z ≡ line_at g.rows (pos i) g.scale.z) }
    {
        self.z_axis().line_at(i)
    }

    /// The smallest x coordinate of the `j`-th column of this heightfield, on either side of it too.
    pub fn signed_x_at(&self, j: isize) -> Result<f32, HeightFieldError>
        ensures { let g = grid_of self.now in Answers result (signed_line_refusal j) (λ x. x ≡ line_at g.columns j g.scale.x) }
    {
        self.x_axis().signed_line_at(j)
    }

    /// The smallest z coordinate of the start of the `i`-th row of this heightfield, on either side of it too.
    pub fn signed_z_at(&self, i: isize) -> Result<f32, HeightFieldError>
        ensures { let g = grid_of self.now in Answers result (signed_line_refusal i) (λ z. z ≡ line_at g.rows i g.scale.z) }
    {
        self.z_axis().signed_line_at(i)
    }
}
