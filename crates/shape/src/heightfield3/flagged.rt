ghost use Rattle.std.specs.Prelude.{◌≡◌, None, if◌then◌else◌, Some};
ghost use Rattle.std.specs.Option.{option_map};
ghost use Rattle.utils.specs.Errors.{Answers};
ghost use Rattle.utils.specs.Tables.{index_refusal};
ghost use Rattle.cells.specs.Statuses.{removed, zigzag};
ghost use Rattle.numbering.specs.Numbers.{local_refusal, vids_of, triangle_number, converted};
ghost use Rattle.shape.specs.Grids.{grid_of};
ghost use Rattle.shape.specs.Tables.{byte_at, table_refusal, pattern_of};

use super::HeightField;
use cells::feature_id::FeatureId;
use cells::status::HeightFieldCellStatus;
use cells::vids::TriangleVids;
use numbering::size::grid_cell::GridCell;
use utils::array2::Array2;
use utils::error::HeightFieldError;

/// A heightfield with its table of cell statuses.
#[derive(Drop)]
pub struct FlaggedHeightField<'g, 'd, 'f> {
    grid: &'g HeightField<'d>,
    statuses: Array2<'f, u8>,
    ghost rows: { statuses.nrows ≡ grid.now.size.nrows },
    ghost columns: { statuses.ncols ≡ grid.now.size.ncols },
}

/// A cell of a heightfield, with its status.
#[derive(Clone, Copy)]
pub struct HeightFieldCell<'g, 'd> {
    grid: &'g HeightField<'d>,
    at: GridCell,
    status: HeightFieldCellStatus,
    ghost of: { at.size ≡ grid.now.size },
}

// The calls of the crate's names keep taking a grid and a table: the table is the caller's.
impl<'d> HeightField<'d> {
    /// This heightfield with a table of cell statuses.
    pub fn with_flags<'g, 'f>(
        &'g self,
        flags: &'f [u8],
    ) -> Result<FlaggedHeightField<'g, 'd, 'f>, HeightFieldError>
        ensures { Answers result (table_refusal (grid_of self.now) flags.now) (λ f. (f.grid ≡ self.entry) × (f.statuses.«data» ≡ flags.entry)) }
    {
        let statuses = Array2::new(self.nrows(), self.ncols(), flags)?;
        Ok(FlaggedHeightField {
            grid: self,
            statuses,
        })
    }
}

impl<'g, 'd, 'f> FlaggedHeightField<'g, 'd, 'f> {
    /// The heightfield.
    pub fn grid(&self) -> &'g HeightField<'d>
        ensures { result ≡ self.now.grid }
    {
        self.grid
    }

    /// The cell `(i, j)`.
    pub fn cell(&self, i: usize, j: usize) -> Result<HeightFieldCell<'g, 'd>, HeightFieldError>
        ensures { let f = self.now in let g = grid_of f.grid.now in Answers result (index_refusal g.rows g.columns i j) (λ c. (c.grid ≡ f.grid) × (c.at.i ≡ i) × (c.at.j ≡ j) × (c.status.0 ≡ byte_at g.rows f.statuses.«data».now i j)) }
    {
        let bits = self.statuses.get(i, j)?;
        let at = self.grid.size().cell(i, j)?;
        Ok(HeightFieldCell {
            grid: self.grid,
            at,
            status: HeightFieldCellStatus::from_bits_retain(bits),
        })
    }
}

impl<'g, 'd> HeightFieldCell<'g, 'd> {
    /// The heightfield.
    pub fn grid(&self) -> &'g HeightField<'d>
        ensures { result ≡ self.now.grid }
    {
        self.grid
    }

    /// The row and the column of this cell.
    pub fn index(&self) -> (usize, usize)
        ensures { result ≡ (self.now.at.i, self.now.at.j) }
    {
        (self.at.i(), self.at.j())
    }

    /// The status of this cell.
    pub fn status(&self) -> HeightFieldCellStatus
        ensures { result ≡ self.now.status }
    {
        self.status
    }

    /// Whether the left or right triangle has the zigzag pattern; none if it is removed.
    pub fn pattern(&self, left: bool) -> Option<bool>
        ensures { result ≡ pattern_of self.now.status.0 left }
    {
        if self.status.is_removed(left) {
            return None;
        }
        Some(self.status.is_zigzag())
    }

    /// The number of the left or right triangle.
    pub fn triangle_id(&self, left: bool) -> u32
        ensures { let c = self.now in let g = grid_of c.grid.now in result ≡ triangle_number g.rows g.columns c.at.i c.at.j left }
    {
        self.at.triangle_id(left)
    }

    /// The vertex numbers of the left or right triangle, if it stands.
    pub fn triangle_vids(&self, left: bool) -> Option<TriangleVids>
        ensures { let c = self.now in result ≡ option_map (λ z. vids_of (grid_of c.grid.now).rows z c.at.i c.at.j left) (pattern_of c.status.0 left) }
    {
        let zigzag = self.pattern(left)?;
        Some(self.at.triangle_vids(zigzag, left))
    }

    /// Converts the FeatureID of the left or right triangle into a FeatureId of the whole heightfield.
    pub fn convert_triangle_feature_id(
        &self,
        left: bool,
        fid: FeatureId,
    ) -> Result<FeatureId, HeightFieldError>
        ensures { let c = self.now in let g = grid_of c.grid.now in Answers result (local_refusal fid) (λ f. f ≡ converted g.rows g.columns (zigzag c.status.0) c.at.i c.at.j left fid) }
    {
        self.at
            .convert_triangle_feature_id(self.status.is_zigzag(), left, fid)
    }
}
