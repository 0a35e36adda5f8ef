ghost use Rattle.std.specs.Prelude.{◌≡◌, ℕ, List, length, slice_set};
ghost use Rattle.utils.specs.Errors.{Answers};
ghost use Rattle.takers.specs.Totals.{sheet_refusal};

use crate::taker::{Taker, Tally};
use crate::triangle::NumberedTriangle;
use numbering::size::GridSize;
use utils::error::HeightFieldError;

/// Marks the triangles that come up: sets the byte at each one's number to 1. A number past the sheet marks nothing.
#[derive(Drop)]
pub struct MarkSheet<'a> {
    marks: &'a mut [u8],
}

impl<'a> MarkSheet<'a> {
    /// A sheet over the caller's bytes, which stay as they are until a triangle is marked.
    pub fn new(marks: &'a mut [u8]) -> MarkSheet<'a>
        ensures { (result.marks.now ≡ marks.old) × (result.marks.ghost_name ≡ marks.entry.ghost_name) }
    {
        MarkSheet { marks }
    }

    /// Refuses a sheet that has fewer bytes than a heightfield of that size has triangles.
    pub fn check(&self, size: GridSize) -> Result<(), HeightFieldError>
        ensures { Answers result (sheet_refusal size.nrows size.ncols (length self.now.marks.now)) (λ _. Unit {0}) }
    {
        if self.marks.len() < size.num_triangles() {
            return Err(HeightFieldError::BufferTooShort);
        }
        Ok(())
    }
}

impl Taker for MarkSheet<'_> {
    ghost Total = { List ℕ };

    ghost total = { λ s. s.marks.now };

    ghost adds = { λ marks t. slice_set marks t.id 1 };

    ghost place = { λ s. s.marks.ghost_name };

    fn add(&mut self, triangle: NumberedTriangle) {
        let id = triangle.id as usize;
        if id < self.marks.len() {
            self.marks[id] = 1;
        }
    }
}

impl Tally for MarkSheet<'_> {
    fn any_order(&self) {}
}
