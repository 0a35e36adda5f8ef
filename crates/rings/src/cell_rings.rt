ghost use Rattle.std.specs.Prelude.{◌≡◌, ◌<◌};
ghost use Rattle.points.specs.Points.{closest_cell};
ghost use Rattle.shape.specs.Flagged.{grid_in};

use math::vector::Vector;
use points::cell_search::CellSearch;
use shape::heightfield3::flagged::FlaggedHeightField;

pub mod spans;
pub mod steps;

/// The rings of cells around a cell of a heightfield.
#[derive(Drop)]
pub struct CellRings<'g, 'd, 'f> {
    field: FlaggedHeightField<'g, 'd, 'f>,
    center: (usize, usize),
    ghost row: { center.0 < (grid_in field).rows },
    ghost column: { center.1 < (grid_in field).columns },
}

impl<'g, 'd, 'f> CellRings<'g, 'd, 'f> {
    /// The rings around the cell closest to the given point.
    pub(crate) fn around_point(
        field: FlaggedHeightField<'g, 'd, 'f>,
        point: Vector,
    ) -> CellRings<'g, 'd, 'f>
        ensures field { result.field ≡ field.entry }
        ensures center { result.center ≡ closest_cell (grid_in field.entry) point }
    {
        let center = field.grid().closest_cell_at_point(point);
        CellRings { field, center }
    }
}
