use crate::vector::Vector;

/// A triangle of three points.
#[derive(Clone, Copy, Debug)]
pub struct Triangle {
    pub a: Vector,
    pub b: Vector,
    pub c: Vector,
}
