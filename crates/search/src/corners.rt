ghost use Rattle.std.specs.Prelude.{◌≡◌};
ghost use Rattle.search.specs.Corners.{corner_of, triangle_of};

use cells::cell::{Corner, cell_triangle};
use math::triangle::Triangle;
use math::vector::Vector;

/// The four corners of a cell.
#[derive(Clone, Copy)]
pub struct CellCorners {
    pub p00: Vector,
    pub p10: Vector,
    pub p01: Vector,
    pub p11: Vector,
}

impl CellCorners {
    /// The given corner.
    pub fn corner(&self, corner: Corner) -> Vector
        ensures { result ≡ corner_of self.now corner }
    {
        match corner {
            Corner::P00 => self.p00,
            Corner::P10 => self.p10,
            Corner::P01 => self.p01,
            Corner::P11 => self.p11,
        }
    }

    /// The left or right triangle of the cell, with or without the zigzag pattern.
    // In place, for where the side is known few of the choices between corners are left.
    #[inline(always)]
    pub fn triangle(&self, zigzag: bool, left: bool) -> Triangle
        ensures { result ≡ triangle_of self.now zigzag left }
    {
        let [a, b, c] = cell_triangle(zigzag, left).corners;
        Triangle {
            a: self.corner(a),
            b: self.corner(b),
            c: self.corner(c),
        }
    }
}
