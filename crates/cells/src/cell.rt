ghost use Rattle.std.specs.Prelude.{◌≡◌};
ghost use Rattle.cells.specs.Cells.{triangle};

/// A corner of the cell `(i, j)`: `P00` is the grid point `(i, j)`, `P10` the point `(i + 1, j)`,
/// `P01` the point `(i, j + 1)` and `P11` the point `(i + 1, j + 1)`.
#[derive(Clone, Copy, PartialEq, Eq, Debug)]
pub enum Corner {
    P00,
    P10,
    P01,
    P11,
}

/// A segment between two corners of a cell.
#[derive(Clone, Copy, PartialEq, Eq, Debug)]
pub enum Side {
    /// From `P00` to `P10`.
    Left,
    /// From `P01` to `P11`.
    Right,
    /// From `P00` to `P01`.
    Top,
    /// From `P10` to `P11`.
    Bottom,
    /// From `P10` to `P01`, or from `P00` to `P11` under the zigzag pattern.
    Diagonal,
}

/// One of the two triangles of a cell: side `k` joins the corners `k` and `k + 1`, side 2 the last and the first.
#[derive(Clone, Copy, PartialEq, Eq, Debug)]
pub struct CellTriangle {
    pub corners: [Corner; 3],
    pub sides: [Side; 3],
}

/// The triangles of a cell, first by pattern (plain, zigzag), then by place (left, right).
///
/// ```text
///  plain          zigzag
///  P00 ___ P01    P00 ___ P01
///     |  /|          |\  |
///     | / |          | \ |
///     |/__|          |__\|
///  P10     P11    P10     P11
/// ```
const TRIANGLES: [[CellTriangle; 2]; 2] = [
    [
        CellTriangle {
            corners: [Corner::P00, Corner::P10, Corner::P01],
            sides: [Side::Left, Side::Diagonal, Side::Top],
        },
        CellTriangle {
            corners: [Corner::P10, Corner::P11, Corner::P01],
            sides: [Side::Bottom, Side::Right, Side::Diagonal],
        },
    ],
    [
        CellTriangle {
            corners: [Corner::P00, Corner::P10, Corner::P11],
            sides: [Side::Left, Side::Bottom, Side::Diagonal],
        },
        CellTriangle {
            corners: [Corner::P00, Corner::P11, Corner::P01],
            sides: [Side::Diagonal, Side::Right, Side::Top],
        },
    ],
];

/// The left or right triangle of a cell with or without the zigzag pattern.
pub fn cell_triangle(zigzag: bool, left: bool) -> CellTriangle
    ensures { result ≡ triangle zigzag left }
{
    TRIANGLES[usize::from(zigzag)][usize::from(!left)]
}
