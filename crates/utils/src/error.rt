ghost use Rattle.std.specs.Prelude.{◌≡◌};
ghost use Rattle.utils.specs.Errors.{error_number};

use std::error::Error;
use std::fmt;

/// Why a call was refused, with the number by which the refusal is reported.
#[derive(Clone, Copy, PartialEq, Eq, Debug)]
pub enum HeightFieldError {
    TooFewPoints = 1,
    TooManyPoints = 2,
    LengthMismatch = 3,
    ScaleOutOfRange = 4,
    IndexOutOfRange = 5,
    InvalidStatus = 6,
    InvalidLocalIndex = 7,
    BufferTooShort = 8,
}

impl HeightFieldError {
    /// The number by which this refusal is reported.
    pub fn number(self) -> u8
        ensures { result ≡ error_number self }
    {
        self as u8
    }
}

impl fmt::Display for HeightFieldError {
    fn fmt<W: fmt::Write>(&self, f: &mut fmt::Formatter<W>) -> fmt::Result {
        let text = match self {
            HeightFieldError::TooFewPoints => "fewer than two rows or columns of points",
            HeightFieldError::TooManyPoints =>
                "more rows, columns or points than a heightfield takes",
            HeightFieldError::LengthMismatch =>
                "a table whose length is not its rows times its columns",
            HeightFieldError::ScaleOutOfRange => "a scale that is NaN, below 2^-20 or above 2^20",
            HeightFieldError::IndexOutOfRange => "a cell, an entry or a line out of range",
            HeightFieldError::InvalidStatus => "a cell status above 7",
            HeightFieldError::InvalidLocalIndex => "a local vertex or edge number above 2",
            HeightFieldError::BufferTooShort => "a buffer with fewer bytes than triangles",
        };
        f.write_str(text)
    }
}

impl Error for HeightFieldError {}
