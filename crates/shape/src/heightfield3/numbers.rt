ghost use Rattle.std.specs.Prelude.{◌≡◌, true, false};
ghost use Rattle.utils.specs.Errors.{Answers};
ghost use Rattle.shape.specs.Grids.{grid_of};
ghost use Rattle.shape.specs.Tables.{table_refusal, vids_at, vids_by_id, convert_refusal, converted_at};

use super::HeightField;
use cells::feature_id::FeatureId;
use cells::vids::TriangleVids;
use utils::error::HeightFieldError;

impl HeightField<'_> {
    /// Gets the indices of the vertices of the (up to) two triangles for the cell (i, j).
    pub fn triangles_vids_at(
        &self,
        flags: &[u8],
        i: usize,
        j: usize,
    ) -> Result<(Option<TriangleVids>, Option<TriangleVids>), HeightFieldError>
        ensures { let g = grid_of self.now in Answers result (table_refusal g flags.now) (λ v. v ≡ (vids_at g.rows g.columns flags.now i j true, vids_at g.rows g.columns flags.now i j false)) }
    {
        let Ok(cell) = self.with_flags(flags)?.cell(i, j) else {
            return Ok((None, None));
        };
        let (left, right) = (cell.triangle_vids(true), cell.triangle_vids(false));
        Ok((left, right))
    }

    /// Gets the vertex indices of the triangle identified by `id`.
    // The cell of a number is found in two lines, here and for the drawn triangle: a function for them would be no shorter.
    pub fn triangle_vids_at_id(
        &self,
        flags: &[u8],
        id: u32,
    ) -> Result<Option<TriangleVids>, HeightFieldError>
        ensures { let g = grid_of self.now in Answers result (table_refusal g flags.now) (λ v. v ≡ vids_by_id g.rows g.columns flags.now id) }
    {
        let (i, j, left) = self.size.split_triangle_id(id);
        let Ok(cell) = self.with_flags(flags)?.cell(i, j) else {
            return Ok(None);
        };
        Ok(cell.triangle_vids(left))
    }

    /// Converts the FeatureID of the left or right triangle at the cell `(i, j)` into a FeatureId
    /// of the whole heightfield.
    pub fn convert_triangle_feature_id(
        &self,
        flags: &[u8],
        i: usize,
        j: usize,
        left: bool,
        fid: FeatureId,
    ) -> Result<FeatureId, HeightFieldError>
        ensures { let g = grid_of self.now in Answers result (convert_refusal g.rows g.columns flags.now i j fid) (λ f. f ≡ converted_at g.rows g.columns flags.now i j left fid) }
    {
        let cell = self.with_flags(flags)?.cell(i, j)?;
        cell.convert_triangle_feature_id(left, fid)
    }
}
