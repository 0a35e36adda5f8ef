ghost use Rattle.std.specs.Float.{binary32};
ghost use Rattle.std.specs.Float.Ieee.{mul, of_int};
ghost use Rattle.std.specs.Prelude.{◌≡◌, ◌^◌, ◌<◌, pos};
ghost use Rattle.utils.specs.Errors.{Answers};
ghost use Rattle.math.specs.Lines.{unit_width, unit_line, cell_width, line_at, line_refusal, signed_line_refusal, unscaled_by};

use crate::lines::{unit_line, unit_width};
use utils::error::HeightFieldError;

/// The farthest line that the signed form takes, to either side of line 0.
const MAX_SIGNED_LINE: isize = 1 << 24;

/// A horizontal axis of a heightfield: how many cells lie along it, and its scale factor.
#[derive(Clone, Copy, Debug)]
pub struct Axis {
    pub cells: usize,
    pub scale: f32,
    ghost some: { 0 < cells },
    ghost few: { cells < 2 ^ 24 },
}

impl Axis {
    /// The width of a cell, excluding the scale factor.
    pub fn unit_width(self) -> f32
        ensures { result ≡ unit_width (of_int binary32 (pos self.cells)) }
    {
        unit_width(self.cells as f32)
    }

    /// The width of a cell, including the scale factor.
    pub fn width(self) -> f32
        ensures { result ≡ cell_width self.cells self.scale }
    {
        self.unit_width() * self.scale
    }

    /// The coordinate of the `j`-th line between cells.
    pub fn line_at(self, j: usize) -> Result<f32, HeightFieldError>
        ensures { Answers result (line_refusal self.cells j) (λ x. x ≡ line_at self.cells (pos j) self.scale) }
    {
        if j > self.cells {
            return Err(HeightFieldError::IndexOutOfRange);
        }
        Ok(self.line(j as f32))
    }

    /// The coordinate of the `j`-th line between cells, on either side of them too.
    pub fn signed_line_at(self, j: isize) -> Result<f32, HeightFieldError>
        ensures { Answers result (signed_line_refusal j) (λ x. x ≡ line_at self.cells j self.scale) }
    {
        if j < -MAX_SIGNED_LINE || j > MAX_SIGNED_LINE {
            return Err(HeightFieldError::IndexOutOfRange);
        }
        Ok(self.line(j as f32))
    }

    /// A coordinate with the scale factor taken out.
    pub fn unscaled(self, v: f32) -> f32
        ensures { result ≡ unscaled_by self.scale v }
    {
        v / self.scale
    }

    fn line(self, j: f32) -> f32
        ensures { result ≡ mul binary32 (unit_line (unit_width (of_int binary32 (pos self.cells))) j) self.scale }
    {
        unit_line(self.unit_width(), j) * self.scale
    }
}
