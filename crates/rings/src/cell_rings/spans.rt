ghost use Rattle.std.specs.Prelude.{◌≡◌, ◌+◌, ◌-◌, ◌*◌, ◌^◌, ◌<◌, ◌≤◌, ◌&&◌, nat_le, nat_lt};
ghost use Rattle.rings.specs.RingLists.{side_length, place_of, on_grid};
ghost use Rattle.rings.specs.Spans.{IsSpan};
ghost use Rattle.shape.specs.Flagged.{grid_in};

use super::CellRings;
use crate::place::{RingPlace, RingSide};
use math::axis::Axis;
use std::ops::Range;

/// The steps at which a side that rises from its ring before the centre's `at` is on an axis.
// A falling side leaves the heightfield at its other end, by another formula.
fn rising(place: RingPlace, at: usize, axis: Axis, length: usize) -> Range<usize>
    requires { at < axis.cells }
    ensures { IsSpan length result.start result.end (λ t. nat_le place.ring (at + t) && nat_lt (at + t) (axis.cells + place.ring)) }
{
    let (ring, n) = (place.ring, axis.cells);
    ring.saturating_sub(at)..(n + ring - at).min(length)
}

/// The steps at which a side that falls from its ring past the centre's `at` is on an axis.
fn falling(place: RingPlace, at: usize, axis: Axis, length: usize) -> Range<usize>
    requires { (at < axis.cells) × (length ≤ 2 * place.ring) }
    ensures { IsSpan length result.start result.end (λ t. nat_le place.ring (at + 2 * place.ring - t) && nat_lt (at + 2 * place.ring - t) (axis.cells + place.ring)) }
{
    let (ring, n) = (place.ring, axis.cells);
    (at + ring + 1).saturating_sub(n)..(at + ring + 1).min(length)
}

impl CellRings<'_, '_, '_> {
    /// The steps at which the side of a place is on the heightfield. The rest of the side is off it.
    pub(crate) fn span(&self, place: RingPlace) -> Range<usize>
        ensures { let r = self.now in let g = grid_in r.field in IsSpan (side_length place.ring place.side) result.start result.end (λ t. on_grid g.rows g.columns place.ring (place_of r.center.0 r.center.1 place.ring place.side t)) }
    {
        let (i, j) = self.center;
        let (x, z) = (self.field.grid().x_axis(), self.field.grid().z_axis());
        let (ring, length) = (place.ring, place.side_length());
        match place.side {
            RingSide::RowRising if ring <= j => rising(place, i, z, length),
            RingSide::ColumnRising if i + ring < z.cells => rising(place, j, x, length),
            RingSide::RowFalling if j + ring < x.cells => falling(place, i, z, length),
            RingSide::ColumnFalling if ring <= i => falling(place, j, x, length),
            _ => 0..0,
        }
    }

    /// The cell at a place whose row and column are not below the first.
    pub(crate) fn cell_at(&self, place: RingPlace) -> (usize, usize)
        requires near { place.step ≤ 2 * place.ring }
        requires row { place.ring ≤ (place_of self.now.center.0 self.now.center.1 place.ring place.side place.step).0 }
        requires column { place.ring ≤ (place_of self.now.center.0 self.now.center.1 place.ring place.side place.step).1 }
        ensures { let p = place_of self.now.center.0 self.now.center.1 place.ring place.side place.step in result ≡ (p.0 - place.ring, p.1 - place.ring) }
    {
        let (i, j) = self.center;
        let RingPlace { ring, side, step } = place;
        match side {
            RingSide::RowRising => (i + step - ring, j - ring),
            RingSide::ColumnRising => (i + ring, j + step - ring),
            RingSide::RowFalling => (i + ring - step, j + ring),
            RingSide::ColumnFalling => (i - ring, j + ring - step),
        }
    }
}
