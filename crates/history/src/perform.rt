ghost use Rattle.std.specs.Prelude.{◌≡◌, fold};
ghost use Rattle.history.specs.Past.{Step, answered};
ghost use Rattle.history.specs.Runs.{state_of, handed};

use crate::asking::{ask_triangles, ask_triangles_around_point};
use crate::call::{Answer, Call};
use emptying::tallying::{empty_triangles, empty_triangles_within};
use points::cell_search::CellSearch;
use search::boxes::BoxSearch;
use search::triangles::Triangles;
use shape::heightfield3::HeightField;
use takers::taker::{Taker, Tally};

/// Performs a call on a heightfield and its table. The triangles that it gives are added to the tally.
// A log holds calls as data, so they are told apart here. Grid, table and tally stay three `&mut`: a struct of them would have to promise
// what it leaves of each.
pub fn perform<T: Tally>(
    grid: &mut HeightField<'_>,
    flags: &mut [u8],
    tally: &mut T,
    call: Call<'_>,
) -> Answer
    ensures step { Step (state_of grid.old flags.old) (answered call.entry result) (state_of grid.new flags.new) }
    ensures added { T.Taker.total tally.new ≡ fold T.Taker.adds (T.Taker.total tally.old) (handed (state_of grid.old flags.old) call.entry) }
    ensures lender { T.Taker.place tally.new ≡ T.Taker.place tally.old }
{
    match call {
        Call::SetCellStatus(i, j, status) => {
            Answer::Done(grid.set_cell_status(flags, i, j, status))
        }
        Call::SetScale(scale) => Answer::Done(grid.set_scale(scale)),
        Call::ConvertTriangleFeatureId(i, j, left, fid) => {
            Answer::Feature(grid.convert_triangle_feature_id(flags, i, j, left, fid))
        }
        Call::MapElementsInLocalAabb(aabb) => {
            Answer::Done(grid.map_elements_in_local_aabb(flags, &aabb, tally))
        }
        Call::Triangles(times) => Answer::Given(ask_triangles(grid, flags, times, tally)),
        Call::TrianglesAroundPoint(point, reaches) => {
            Answer::Given(ask_triangles_around_point(grid, flags, point, reaches, tally))
        }
        Call::EmptyTriangles => Answer::Done(empty_triangles(grid, flags, tally)),
        Call::EmptyTrianglesWithin(point, reach) => {
            Answer::Done(empty_triangles_within(grid, flags, point, reach, tally))
        }
        Call::CellStatus(i, j) => Answer::Status(grid.cell_status(flags, i, j)),
        Call::TriangleVidsAtId(id) => Answer::Vids(grid.triangle_vids_at_id(flags, id)),
        Call::TriangleAtId(id) => Answer::Drawn(grid.triangle_at_id(flags, id)),
        Call::CellAtPoint(point) => Answer::Cell(grid.cell_at_point(point)),
        Call::RootAabb => Answer::BoundingBox(grid.root_aabb()),
    }
}
