ghost use Rattle.std.specs.Prelude.{◌≡◌};
ghost use Rattle.rings.specs.RingCursors.{fresh_cursor, asked_of};
ghost use Rattle.shape.specs.Grids.{grid_of};
ghost use Rattle.shape.specs.Tables.{table_refusal};
ghost use Rattle.utils.specs.Errors.{Answers};

use super::HeightFieldRadialTriangles;
use crate::cell_rings::CellRings;
use crate::place::{RingPlace, RingSide};
use crate::reach::Reach;
use math::vector::Vector;
use shape::heightfield3::HeightField;
use takers::triangle::NumberedTriangle;
use utils::error::HeightFieldError;

/// A walk through all the triangles around the given point, after vertical projection on the heightfield.
pub fn triangles_around_point<'g, 'd, 'f>(
    grid: &'g HeightField<'d>,
    flags: &'f [u8],
    point: Vector,
) -> Result<HeightFieldRadialTriangles<'g, 'd, 'f>, HeightFieldError>
    ensures { let g = grid_of grid.now in Answers result (table_refusal g flags.now) (λ w. w ≡ fresh_cursor g flags.now point) }
{
    let field = grid.with_flags(flags)?;
    let rings = CellRings::around_point(field, point);
    let place = RingPlace {
        ring: 0,
        side: RingSide::RowRising,
        step: 0,
    };
    Ok(HeightFieldRadialTriangles {
        rings,
        place,
        pending: None,
    })
}

impl HeightFieldRadialTriangles<'_, '_, '_> {
    /// Returns the next triangle of this walk.
    ///
    /// Returns `None` if no triangle remains in the rings entered so far and in those that `reach` allows. A later call with a longer
    /// reach goes on.
    pub fn next(&mut self, reach: Reach) -> Option<NumberedTriangle>
        ensures { (result, self.new) ≡ asked_of self.old reach }
    {
        if let Some(triangle) = self.pending.take() {
            return Some(triangle);
        }
        let last = self.rings.last_ring(reach);
        let (found, place) = self.rings.find(self.place, last);
        self.place = place;
        let standing = found?;
        self.pending = standing.second;
        Some(standing.first)
    }
}
