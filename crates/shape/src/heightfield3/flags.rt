ghost use Rattle.std.specs.Prelude.{◌≡◌, ◌<◌, OnSome};
ghost use Rattle.utils.specs.Errors.{Answers};
ghost use Rattle.shape.specs.Grids.{grid_of};
ghost use Rattle.shape.specs.Tables.{byte_at, status_refusal, setting_refusal, setting_leaves, table_refusal, pattern_at};

use super::HeightField;
use cells::status::HeightFieldCellStatus;
use utils::array2::Array2;
use utils::error::HeightFieldError;

impl HeightField<'_> {
    /// The status of the `(i, j)`-th cell.
    pub fn cell_status(
        &self,
        flags: &[u8],
        i: usize,
        j: usize,
    ) -> Result<HeightFieldCellStatus, HeightFieldError>
        ensures { let g = grid_of self.now in Answers result (status_refusal g.rows g.columns flags.now i j) (λ s. s.0 ≡ byte_at g.rows flags.now i j) }
    {
        let cell = self.with_flags(flags)?.cell(i, j)?;
        Ok(cell.status())
    }

    /// Set the status of the `(i, j)`-th cell.
    pub fn set_cell_status(
        &self,
        flags: &mut [u8],
        i: usize,
        j: usize,
        status: HeightFieldCellStatus,
    ) -> Result<(), HeightFieldError>
        ensures answer { let g = grid_of self.now in Answers result (setting_refusal g.rows g.columns flags.old i j status.0) (λ _. Unit {0}) }
        ensures table { let g = grid_of self.now in flags.new ≡ setting_leaves g.rows g.columns flags.old i j status.0 }
    {
        self.cell_status(flags, i, j)?;
        if status.bits() > 7 {
            return Err(HeightFieldError::InvalidStatus);
        }
        Array2::set(self.nrows(), self.ncols(), flags, i, j, status.bits())
    }

    /// Whether the left or right triangle of the cell `(i, j)` has the zigzag pattern; none if it is removed or off this heightfield.
    pub fn pattern(
        &self,
        flags: &[u8],
        i: usize,
        j: usize,
        left: bool,
    ) -> Result<Option<bool>, HeightFieldError>
        ensures { let g = grid_of self.now in Answers result (table_refusal g flags.now) (λ o. (o ≡ pattern_at g.rows g.columns flags.now i j left) × OnSome o ((i < g.rows) × (j < g.columns))) }
    {
        let Ok(cell) = self.with_flags(flags)?.cell(i, j) else {
            return Ok(None);
        };
        Ok(cell.pattern(left))
    }
}
