ghost use Rattle.std.specs.Prelude.{◌≡◌, ◌+◌, ◌*◌, ◌^◌, ◌<◌, ◌≤◌};
ghost use Rattle.utils.specs.Errors.{Answers};
ghost use Rattle.numbering.specs.Numbers.{size_refusal};

use utils::error::HeightFieldError;

pub mod grid_cell;
pub mod ids;

/// The most rows, or columns, of points.
const MAX_LINES: usize = 1 << 24;

/// The most points.
const MAX_POINTS: usize = 1 << 28;

/// The numbers of rows and columns of a heightfield's cells.
#[derive(Clone, Copy, Debug)]
pub struct GridSize {
    nrows: usize,
    ncols: usize,
    ghost rows: { 0 < nrows },
    ghost columns: { 0 < ncols },
    ghost lines: { nrows < 2 ^ 24 },
    ghost files: { ncols < 2 ^ 24 },
    ghost points: { (nrows + 1) * (ncols + 1) ≤ 2 ^ 28 },
}

impl GridSize {
    /// The size of a heightfield with the given rows and columns of points.
    pub fn new(nrows: usize, ncols: usize) -> Result<GridSize, HeightFieldError>
        ensures { Answers result (size_refusal nrows ncols) (λ s. (s.nrows + 1 ≡ nrows) × (s.ncols + 1 ≡ ncols)) }
    {
        if nrows < 2 || ncols < 2 {
            return Err(HeightFieldError::TooFewPoints);
        }
        if nrows > MAX_LINES || ncols > MAX_LINES || nrows * ncols > MAX_POINTS {
            return Err(HeightFieldError::TooManyPoints);
        }
        Ok(GridSize {
            nrows: nrows - 1,
            ncols: ncols - 1,
        })
    }

    /// The number of rows of cells.
    pub fn nrows(&self) -> usize
        ensures { result ≡ self.now.nrows }
    {
        self.nrows
    }

    /// The number of columns of cells.
    pub fn ncols(&self) -> usize
        ensures { result ≡ self.now.ncols }
    {
        self.ncols
    }
}
