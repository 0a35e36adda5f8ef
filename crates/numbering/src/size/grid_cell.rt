ghost use Rattle.std.specs.Prelude.{◌≡◌, ◌<◌};
ghost use Rattle.utils.specs.Errors.{Answers};
ghost use Rattle.utils.specs.Tables.{index_refusal};
ghost use Rattle.numbering.specs.Numbers.{triangle_number, face_number, corner_number, edge_number, vids_of, local_refusal, converted};

use super::GridSize;
use cells::cell::{Corner, Side, cell_triangle};
use cells::feature_id::FeatureId;
use cells::vids::TriangleVids;
use utils::error::HeightFieldError;

/// A cell of a heightfield of the given size.
#[derive(Clone, Copy, Debug)]
pub struct GridCell {
    size: GridSize,
    i: usize,
    j: usize,
    ghost row: { i < size.nrows },
    ghost column: { j < size.ncols },
}

impl GridSize {
    /// The cell `(i, j)`.
    pub fn cell(&self, i: usize, j: usize) -> Result<GridCell, HeightFieldError>
        ensures { let s = self.now in Answers result (index_refusal s.nrows s.ncols i j) (λ c. (c.size ≡ s) × (c.i ≡ i) × (c.j ≡ j)) }
    {
        if i >= self.nrows || j >= self.ncols {
            return Err(HeightFieldError::IndexOutOfRange);
        }
        Ok(GridCell { size: *self, i, j })
    }
}

impl GridCell {
    /// The row of this cell.
    pub fn i(&self) -> usize
        ensures { result ≡ self.now.i }
    {
        self.i
    }

    /// The column of this cell.
    pub fn j(&self) -> usize
        ensures { result ≡ self.now.j }
    {
        self.j
    }

    /// The number of the left or right triangle.
    pub fn triangle_id(&self, left: bool) -> u32
        ensures { let c = self.now in result ≡ triangle_number c.size.nrows c.size.ncols c.i c.j left }
    {
        let tid = self.j * self.size.nrows + self.i;
        if left {
            tid as u32
        } else {
            (tid + self.size.num_triangles() / 2) as u32
        }
    }

    /// The vertex numbers of the left or right triangle.
    pub fn triangle_vids(&self, zigzag: bool, left: bool) -> TriangleVids
        ensures { let c = self.now in result ≡ vids_of c.size.nrows zigzag c.i c.j left }
    {
        let [a, b, c] = cell_triangle(zigzag, left).corners;
        TriangleVids {
            a: self.corner_number(a),
            b: self.corner_number(b),
            c: self.corner_number(c),
        }
    }

    /// Converts the feature of the left or right triangle into a feature of the whole heightfield.
    pub fn convert_triangle_feature_id(
        &self,
        zigzag: bool,
        left: bool,
        fid: FeatureId,
    ) -> Result<FeatureId, HeightFieldError>
        ensures { let c = self.now in Answers result (local_refusal fid) (λ f. f ≡ converted c.size.nrows c.size.ncols zigzag c.i c.j left fid) }
    {
        let triangle = cell_triangle(zigzag, left);
        match fid {
            FeatureId::Vertex(ivertex) => {
                let corner = triangle
                    .corners
                    .get(ivertex as usize)
                    .ok_or(HeightFieldError::InvalidLocalIndex)?;
                Ok(FeatureId::Vertex(self.corner_number(*corner)))
            }
            FeatureId::Edge(iedge) => {
                let side = triangle
                    .sides
                    .get(iedge as usize)
                    .ok_or(HeightFieldError::InvalidLocalIndex)?;
                Ok(FeatureId::Edge(self.edge_number(*side)))
            }
            FeatureId::Face(iface) => Ok(FeatureId::Face(self.face_number(left, iface == 0))),
            FeatureId::Unknown => Ok(FeatureId::Unknown),
        }
    }

    fn face_number(&self, left: bool, front: bool) -> u32
        ensures { let c = self.now in result ≡ face_number c.size.nrows c.size.ncols c.i c.j left front }
    {
        let tid = self.triangle_id(left);
        if front {
            tid
        } else {
            tid + self.size.num_triangles() as u32
        }
    }

    fn corner_number(&self, corner: Corner) -> u32
        ensures { let c = self.now in result ≡ corner_number c.size.nrows c.i c.j corner }
    {
        let nrows = self.size.nrows + 1;
        let ij = self.i + self.j * nrows;
        let vid = match corner {
            Corner::P00 => ij,
            Corner::P10 => ij + 1,
            Corner::P01 => ij + nrows,
            Corner::P11 => ij + 1 + nrows,
        };
        vid as u32
    }

    fn edge_number(&self, side: Side) -> u32
        ensures { let c = self.now in result ≡ edge_number c.size.nrows c.size.ncols c.i c.j side }
    {
        let GridSize { nrows, ncols } = self.size;
        let hshift = nrows * (ncols + 1); // First horizontal line index.
        let dshift = hshift + (nrows + 1) * ncols; // First diagonal line index.
        let ileft = self.i + self.j * nrows;
        let itop = hshift + self.i + self.j * (nrows + 1);
        let id = match side {
            Side::Left => ileft,
            Side::Right => ileft + nrows,
            Side::Top => itop,
            Side::Bottom => itop + 1,
            Side::Diagonal => dshift + ileft,
        };
        id as u32
    }
}
