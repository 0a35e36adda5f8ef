ghost use Rattle.std.specs.Prelude.{◌≡◌, ◌+◌, None};
ghost use Rattle.math.specs.Scales.{scale_refusal};

use math::aabb::Aabb;
use math::vector::Vector;
use numbering::size::GridSize;
use utils::array2::Array2;

pub mod flagged;
pub mod flags;
pub mod has_grid;
pub mod lines;
pub mod making;
pub mod numbers;

/// A 3D heightfield over the caller's heights.
///
/// The table of cell statuses is no part of it: each call that reads or sets one is handed the table.
// No `Model`: the laws take the facts below from a grid's fields.
#[derive(Drop)]
pub struct HeightField<'d> {
    heights: Array2<'d, f32>,
    size: GridSize,
    scale: Vector,
    lowest: f32,
    highest: f32,
    aabb: Aabb,
    ghost rows: { heights.nrows ≡ size.nrows + 1 },
    ghost columns: { heights.ncols ≡ size.ncols + 1 },
    ghost ranged: { scale_refusal scale ≡ None },
}
