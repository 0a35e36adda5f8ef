//! The scan of a hull panel that the programs work on.
#![tactic(auto)]

use math::vector::Vector;

/// The rows of points of the scan.
pub const ROWS: usize = 4;

/// The columns of points of the scan.
pub const COLUMNS: usize = 5;

/// The heights of the scan in metres, one column of points after the other.
pub const HEIGHTS: [f32; 20] = [
    0.112, 0.1185, 0.121, 0.1195, 0.134, 0.142, 0.1465, 0.1435, 0.151, 0.1605, 0.166, 0.1625,
    0.1425, 0.1515, 0.157, 0.1535, 0.119, 0.127, 0.1315, 0.129,
];

/// The cells of the scan, each of which has a status.
pub const CELLS: usize = 12;

/// The length, the unit of height and the width of the panel, in metres.
pub const SCALE: Vector = Vector {
    x: 2.4,
    y: 1.0,
    z: 0.9,
};
