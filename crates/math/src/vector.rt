ghost use Rattle.std.specs.Prelude.{◌≡◌};

use std::fmt;

/// A vector, or a point, of three coordinates.
#[derive(Clone, Copy, Debug)]
pub struct Vector {
    pub x: f32,
    pub y: f32,
    pub z: f32,
}

impl Vector {
    /// Creates a vector from its coordinates.
    pub fn new(x: f32, y: f32, z: f32) -> Vector
        ensures { result ≡ record { x = x; y = y; z = z } }
    {
        Vector { x, y, z }
    }
}

impl fmt::Display for Vector {
    fn fmt<W: fmt::Write>(&self, f: &mut fmt::Formatter<W>) -> fmt::Result {
        let Vector { x, y, z } = *self;
        write!(f, "({x}, {y}, {z})")
    }
}
