ghost use Rattle.std.specs.Option.{option_map};
ghost use Rattle.std.specs.Prelude.{◌≡◌, ◌-◌, ◌^◌, ◌<◌, ◌≤◌, max, min, false, [], ◌++◌, is_some};
ghost use Rattle.rings.specs.Around.{side_left, ring_left, ring_around, second_list};
ghost use Rattle.rings.specs.Asking.{asked};
ghost use Rattle.rings.specs.Reaches.{last_ring};
ghost use Rattle.rings.specs.RingLists.{farthest_ring, side_after};
ghost use Rattle.shape.specs.Flagged.{grid_in};
ghost use Rattle.walks.specs.Standing.{standing_list};

use super::CellRings;
use crate::place::{RingPlace, RingSide};
use crate::reach::Reach;
use math::axis::Axis;
use walks::numbered::standing_at;
use walks::standing::Standing;

impl CellRings<'_, '_, '_> {
    /// The standing triangles of the first cell of a side that has any, from a place on, and the step after it. Where the side leaves
    /// the heightfield it is passed over at once.
    fn find_on_side(&self, place: RingPlace) -> (Option<Standing>, usize)
        ensures found { side_left self.now place ≡ standing_list result.0 ++ side_left self.now (record place { step = result.1 }) }
        ensures none { is_some result.0 ≡ false → side_left self.now (record place { step = result.1 }) ≡ [] }
    {
        let on_grid = self.span(place);
        let first = place.step.max(on_grid.start);
        for step in first..on_grid.end {
            let (i, j) = self.cell_at(place.at(step));
            let found = standing_at(&self.field, i, j);
            if found.is_some() {
                return (found, step + 1);
            }
        }
        (None, first.max(on_grid.end))
    }

    /// The standing triangles of the first cell that has any, from a place on, and the place after it. No ring past the last one is
    /// entered.
    pub(crate) fn find(&self, start: RingPlace, last: usize) -> (Option<Standing>, RingPlace)
        requires { last < 2 ^ 24 }
        ensures answer { (option_map (λ s. s.first) result.0, result.1.ring, second_list result.0 ++ ring_left self.now result.1) ≡ asked (ring_around self.now) (last - start.ring) start.ring (ring_left self.now start) }
        ensures ring { result.1.ring ≤ max start.ring last }
    {
        let mut place = start;
        loop {
            let (found, step) = self.find_on_side(place);
            let after = place.at(step);
            if found.is_some() {
                return (found, after);
            }
            let Some((ring, side)) = side_after(place, last) else {
                return (None, after);
            };
            place = RingPlace {
                ring,
                side,
                step: 0,
            };
        }
    }

    /// The last ring that is entered with a reach.
    pub(crate) fn last_ring(&self, reach: Reach) -> usize
        ensures last { let r = self.now in result ≡ last_ring (grid_in r.field) r.center.0 r.center.1 reach }
        ensures near { result < 2 ^ 24 }
    {
        reach.max_ring(self.field.grid()).min(self.farthest_ring())
    }

    /// The farthest ring that has a cell of the heightfield.
    fn farthest_ring(&self) -> usize
        ensures { let r = self.now in let g = grid_in r.field in result ≡ farthest_ring g.rows g.columns r.center.0 r.center.1 }
    {
        let (i, j) = self.center;
        let grid = self.field.grid();
        farthest_along(grid.z_axis(), i).max(farthest_along(grid.x_axis(), j))
    }
}

/// How far the cells of an axis reach from one of them.
fn farthest_along(axis: Axis, at: usize) -> usize
    requires { at < axis.cells }
    ensures { result ≡ max at (axis.cells - 1 - at) }
{
    at.max(axis.cells - 1 - at)
}

/// Where the walk goes on after a side: at the next side, or at the next ring, if it may be entered.
fn side_after(place: RingPlace, last: usize) -> Option<(usize, RingSide)>
    ensures { result ≡ side_after place.ring place.side last }
{
    let ring = place.ring;
    match place.side {
        RingSide::RowRising => Some((ring, RingSide::ColumnRising)),
        RingSide::ColumnRising => Some((ring, RingSide::RowFalling)),
        RingSide::RowFalling => Some((ring, RingSide::ColumnFalling)),
        RingSide::ColumnFalling if ring < last => Some((ring + 1, RingSide::RowRising)),
        RingSide::ColumnFalling => None,
    }
}
