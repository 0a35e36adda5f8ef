ghost use Rattle.std.specs.Prelude.{◌≡◌, ◌*◌};
ghost use Rattle.utils.specs.Errors.{Answers};
ghost use Rattle.utils.specs.Tables.{index_refusal};
ghost use Rattle.numbering.specs.Numbers.{triangle_number, is_left, row_of, column_of, vids_of, conversion_refusal, converted};

use super::GridSize;
use cells::feature_id::FeatureId;
use cells::vids::TriangleVids;
use utils::error::HeightFieldError;

impl GridSize {
    /// The number of triangles, removed ones included.
    pub fn num_triangles(&self) -> usize
        ensures { let s = self.now in result ≡ 2 * (s.nrows * s.ncols) }
    {
        self.nrows * self.ncols * 2
    }

    /// The number of the left or right triangle of the cell `(i, j)`.
    pub fn triangle_id(&self, i: usize, j: usize, left: bool) -> Result<u32, HeightFieldError>
        ensures { let s = self.now in Answers result (index_refusal s.nrows s.ncols i j) (λ n. n ≡ triangle_number s.nrows s.ncols i j left) }
    {
        Ok(self.cell(i, j)?.triangle_id(left))
    }

    /// The cell of a triangle, and whether it is the left one. The column is past the last for a number that no triangle has.
    pub fn split_triangle_id(&self, id: u32) -> (usize, usize, bool)
        ensures { let s = self.now in result ≡ (row_of s.nrows s.ncols id, column_of s.nrows s.ncols id, is_left s.nrows s.ncols id) }
    {
        let half = self.num_triangles() / 2;
        let id = id as usize;
        let left = id < half;
        let tri_id = if left { id } else { id - half };
        let j = tri_id / self.nrows;
        let i = tri_id - j * self.nrows;
        (i, j, left)
    }

    /// The vertex numbers of the left or right triangle of the cell `(i, j)`.
    pub fn triangle_vids(
        &self,
        zigzag: bool,
        i: usize,
        j: usize,
        left: bool,
    ) -> Result<TriangleVids, HeightFieldError>
        ensures { let s = self.now in Answers result (index_refusal s.nrows s.ncols i j) (λ v. v ≡ vids_of s.nrows zigzag i j left) }
    {
        Ok(self.cell(i, j)?.triangle_vids(zigzag, left))
    }

    /// Converts the feature of the left or right triangle of the cell `(i, j)` into a feature of the whole heightfield.
    pub fn convert_triangle_feature_id(
        &self,
        zigzag: bool,
        i: usize,
        j: usize,
        left: bool,
        fid: FeatureId,
    ) -> Result<FeatureId, HeightFieldError>
        ensures { let s = self.now in Answers result (conversion_refusal s.nrows s.ncols i j fid) (λ f. f ≡ converted s.nrows s.ncols zigzag i j left fid) }
    {
        self.cell(i, j)?
            .convert_triangle_feature_id(zigzag, left, fid)
    }
}
