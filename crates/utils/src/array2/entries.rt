ghost use Rattle.std.specs.Prelude.{◌≡◌, ◌<◌, length, slice_index_or};
ghost use Rattle.utils.specs.Errors.{Answers};
ghost use Rattle.utils.specs.Tables.{place, length_refusal, index_refusal, entry_refusal, written};

use super::Array2;
use crate::error::HeightFieldError;

impl<'d, T> Array2<'d, T> {
    /// Creates a new 2D array from the given dimensions and data.
    pub fn new(nrows: usize, ncols: usize, data: &'d [T]) -> Result<Array2<'d, T>, HeightFieldError>
        ensures { Answers result (length_refusal nrows ncols (length «data».now)) (λ a. (a.nrows ≡ nrows) × (a.ncols ≡ ncols) × (a.«data» ≡ «data».entry)) }
    {
        let Some(len) = nrows.checked_mul(ncols) else {
            return Err(HeightFieldError::LengthMismatch);
        };
        if data.len() != len {
            return Err(HeightFieldError::LengthMismatch);
        }
        Ok(Array2 { nrows, ncols, data })
    }

    /// Computes the flat index for the given row and column.
    pub fn flat_index(&self, i: usize, j: usize) -> Result<usize, HeightFieldError>
        ensures { let a = self.now in Answers result (index_refusal a.nrows a.ncols i j) (λ k. (k ≡ place a.nrows i j) × (k < length a.«data».now)) }
    {
        if i >= self.nrows || j >= self.ncols {
            return Err(HeightFieldError::IndexOutOfRange);
        }
        Ok(i + j * self.nrows)
    }

    /// The entry at the given row and column.
    pub fn get(&self, i: usize, j: usize) -> Result<T, HeightFieldError>
    where
        T: Copy,
        ensures { let a = self.now in Answers result (index_refusal a.nrows a.ncols i j) (λ x. (d : T) → x ≡ slice_index_or a.«data».now (place a.nrows i j) d) }
    {
        let k = self.flat_index(i, j)?;
        let data = self.data;
        Ok(data[k])
    }

    /// Sets the entry at the given row and column of the 2D array with the given dimensions that lies in `data`.
    // A table with a `&mut` field, tried, could not promise what its maker leaves of the slice that it refuses: that proof did not close.
    pub fn set(
        nrows: usize,
        ncols: usize,
        data: &mut [T],
        i: usize,
        j: usize,
        value: T,
    ) -> Result<(), HeightFieldError>
    where
        T: Copy,
        ensures answer { Answers result (entry_refusal nrows ncols (length «data».old) i j) (λ _. Unit {0}) }
        ensures entries { «data».new ≡ written nrows ncols «data».old i j value }
    {
        let k = Array2::new(nrows, ncols, &*data)?.flat_index(i, j)?;
        data[k] = value;
        Ok(())
    }

    /// Returns a reference to the underlying data.
    pub fn data(&self) -> &'d [T]
        ensures { result ≡ self.now.«data» }
    {
        self.data
    }

    /// Returns the number of rows.
    pub fn nrows(&self) -> usize
        ensures { result ≡ self.now.nrows }
    {
        self.nrows
    }

    /// Returns the number of columns.
    pub fn ncols(&self) -> usize
        ensures { result ≡ self.now.ncols }
    {
        self.ncols
    }
}
