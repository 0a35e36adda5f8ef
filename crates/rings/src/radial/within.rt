ghost use Rattle.std.specs.Iterator.{at_most};
ghost use Rattle.std.specs.Prelude.{◌≡◌, length};
ghost use Rattle.rings.specs.Reaches.{rings_within};
ghost use Rattle.shape.specs.Grids.{grid_of};
ghost use Rattle.shape.specs.Tables.{table_refusal};
ghost use Rattle.utils.specs.Errors.{Answers};
ghost use Rattle.walks.specs.Walks.{Gives};

use super::HeightFieldRadialTriangles;
use super::methods::triangles_around_point;
use crate::reach::Reach;
use math::vector::Vector;
use shape::heightfield3::HeightField;
use std::marker::Model;
use takers::triangle::NumberedTriangle;
use utils::error::HeightFieldError;
use walks::walk::Walk;

/// A walk through the triangles around a point with one reach for every call.
#[derive(Drop)]
pub struct RadialTrianglesWithin<'g, 'd, 'f> {
    triangles: HeightFieldRadialTriangles<'g, 'd, 'f>,
    reach: Reach,
}

impl<'g, 'd, 'f> Model for RadialTrianglesWithin<'g, 'd, 'f> {
    ghost use Rattle.std.specs.Prelude.{List};
    ghost use Rattle.rings.specs.RingCursors.{to_come_within};
    ghost use Rattle.takers.specs.declared.triangle.NumberedTriangle.{NumberedTriangle as Numbered};

    ghost Value = { List Numbered };

    ghost view = { λ w. to_come_within w.triangles w.reach };
}

/// A walk through the triangles around the given point, as far as the reach allows.
pub fn triangles_within<'g, 'd, 'f>(
    grid: &'g HeightField<'d>,
    flags: &'f [u8],
    point: Vector,
    reach: Reach,
) -> Result<RadialTrianglesWithin<'g, 'd, 'f>, HeightFieldError>
    ensures { let g = grid_of grid.now in Answers result (table_refusal g flags.now) (λ w. w ≡ rings_within g flags.now point reach) }
{
    let triangles = triangles_around_point(grid, flags, point)?;
    Ok(RadialTrianglesWithin { triangles, reach })
}

impl Iterator for RadialTrianglesWithin<'_, '_, '_> {
    type Item = NumberedTriangle;

    ghost next_gives = { λ w r after. Gives w r after };

    ghost remaining = { λ w. at_most (length w) };

    fn next(&mut self) -> Option<NumberedTriangle> {
        self.triangles.next(self.reach)
    }
}

impl Walk for RadialTrianglesWithin<'_, '_, '_> {
    ghost rest = { λ w. w };

    ghost gives = { λ w. (tt, tt, λ r after met. met) };
}
