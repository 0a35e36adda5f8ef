ghost use Rattle.std.specs.Prelude.{◌≡◌, length, take, fold};
ghost use Rattle.emptying.specs.ByNumber.{where_fits};
ghost use Rattle.history.specs.Past.{given_around};
ghost use Rattle.history.specs.Runs.{state_of};
ghost use Rattle.shape.specs.Grids.{grid_of};
ghost use Rattle.shape.specs.Tables.{table_refusal};
ghost use Rattle.std.specs.Option.{option_to_list};
ghost use Rattle.utils.specs.Errors.{Answers};
ghost use Rattle.walks.specs.ColumnLists.{column_list};

use math::vector::Vector;
use rings::radial::methods::triangles_around_point;
use rings::reach::Reach;
use shape::heightfield3::HeightField;
use takers::taker::Taker;
use takers::triangle::NumberedTriangle;
use utils::error::HeightFieldError;
use walks::columns::methods::triangles;

/// Adds a triangle, if there is one, and says how many that were.
// A step of its own, so that the count and the total are promised of one triangle, and not in each arm of a loop.
fn hand_over<T: Taker>(found: Option<NumberedTriangle>, taker: &mut T) -> usize
    ensures count { result ≡ length (option_to_list found) }
    ensures added { T.total taker.new ≡ fold T.adds (T.total taker.old) (option_to_list found) }
    ensures lender { T.place taker.new ≡ T.place taker.old }
{
    let Some(triangle) = found else {
        return 0;
    };
    taker.add(triangle);
    1
}

/// Asks a walk by columns so many times, or until it gives none, hands over what it gives, and says how many triangles that were.
pub fn ask_triangles<T: Taker>(
    grid: &HeightField<'_>,
    flags: &[u8],
    times: usize,
    taker: &mut T,
) -> Result<usize, HeightFieldError>
    ensures answer { let s = state_of grid.now flags.now in Answers result (table_refusal s.grid s.flags) (λ n. n ≡ length (take times (column_list s.grid s.flags))) }
    ensures added { let s = state_of grid.now flags.now in T.total taker.new ≡ fold T.adds (T.total taker.old) (where_fits s.grid s.flags (take times (column_list s.grid s.flags))) }
    ensures lender { T.place taker.new ≡ T.place taker.old }
{
    let mut walk = triangles(grid, flags)?;
    for given in 0..times {
        let Some(triangle) = walk.next() else {
            return Ok(given);
        };
        taker.add(triangle);
    }
    Ok(times)
}

/// Asks a walk around a point with one reach after the other, hands over what it gives, and says how many triangles that were.
pub fn ask_triangles_around_point<T: Taker>(
    grid: &HeightField<'_>,
    flags: &[u8],
    point: Vector,
    reaches: &[Reach],
    taker: &mut T,
) -> Result<usize, HeightFieldError>
    ensures answer { let s = state_of grid.now flags.now in Answers result (table_refusal s.grid s.flags) (λ n. n ≡ length (given_around s point reaches.now)) }
    ensures added { let s = state_of grid.now flags.now in T.total taker.new ≡ fold T.adds (T.total taker.old) (where_fits s.grid s.flags (given_around s point reaches.now)) }
    ensures lender { T.place taker.new ≡ T.place taker.old }
{
    let mut walk = triangles_around_point(grid, flags, point)?;
    let mut given = 0;
    for reach in reaches {
        given += hand_over(walk.next(*reach), taker);
    }
    Ok(given)
}
