ghost use Rattle.std.specs.Prelude.{◌≡◌, fold};
ghost use Rattle.emptying.specs.ByNumber.{by_number, where_fits};
ghost use Rattle.rings.specs.Reaches.{rings_within};
ghost use Rattle.rings.specs.declared.reach.Reach.TheVariants.{Unlimited};
ghost use Rattle.shape.specs.Grids.{grid_of};
ghost use Rattle.shape.specs.Tables.{table_refusal};
ghost use Rattle.utils.specs.Errors.{Answers};
ghost use Rattle.walks.specs.ColumnLists.{column_list};

use crate::emptying::empty_into;
use math::vector::Vector;
use rings::radial::within::triangles_within;
use rings::reach::Reach;
use shape::heightfield3::HeightField;
use takers::taker::{Taker, Tally};
use utils::error::HeightFieldError;
use walks::columns::methods::triangles;

/// Empties a walk through all the triangles of a heightfield into a taker.
// Each of the four opens its own walk and promises its own list; what they share is `empty_into`.
pub fn empty_triangles<T: Taker>(
    grid: &HeightField<'_>,
    flags: &[u8],
    taker: &mut T,
) -> Result<(), HeightFieldError>
    ensures answer { let g = grid_of grid.now in Answers result (table_refusal g flags.now) (λ _. Unit {0}) }
    ensures added { let g = grid_of grid.now in T.total taker.new ≡ fold T.adds (T.total taker.old) (where_fits g flags.now (column_list g flags.now)) }
    ensures lender { T.place taker.new ≡ T.place taker.old }
{
    let mut walk = triangles(grid, flags)?;
    empty_into(&mut walk, taker);
    Ok(())
}

/// Empties a walk through the triangles around the given point, as far as the reach allows, into a taker.
pub fn empty_triangles_within<T: Taker>(
    grid: &HeightField<'_>,
    flags: &[u8],
    point: Vector,
    reach: Reach,
    taker: &mut T,
) -> Result<(), HeightFieldError>
    ensures answer { let g = grid_of grid.now in Answers result (table_refusal g flags.now) (λ _. Unit {0}) }
    ensures added { let g = grid_of grid.now in T.total taker.new ≡ fold T.adds (T.total taker.old) (where_fits g flags.now (rings_within g flags.now point reach)) }
    ensures lender { T.place taker.new ≡ T.place taker.old }
{
    let mut walk = triangles_within(grid, flags, point, reach)?;
    empty_into(&mut walk, taker);
    Ok(())
}

/// Empties a walk through all the triangles of a heightfield into a tally, which then has each standing triangle added once.
pub fn tally_triangles<T: Tally>(
    grid: &HeightField<'_>,
    flags: &[u8],
    tally: &mut T,
) -> Result<(), HeightFieldError>
    ensures answer { let g = grid_of grid.now in Answers result (table_refusal g flags.now) (λ _. Unit {0}) }
    ensures added { let g = grid_of grid.now in T.Taker.total tally.new ≡ fold T.Taker.adds (T.Taker.total tally.old) (where_fits g flags.now (by_number g flags.now)) }
    ensures lender { T.Taker.place tally.new ≡ T.Taker.place tally.old }
{
    tally.any_order();
    empty_triangles(grid, flags, tally)
}

/// Empties a walk through all the triangles around the given point into a tally, which then has each standing triangle added once.
pub fn tally_triangles_around_point<T: Tally>(
    grid: &HeightField<'_>,
    flags: &[u8],
    point: Vector,
    tally: &mut T,
) -> Result<(), HeightFieldError>
    ensures answer { let g = grid_of grid.now in Answers result (table_refusal g flags.now) (λ _. Unit {0}) }
    ensures added { let g = grid_of grid.now in T.Taker.total tally.new ≡ fold T.Taker.adds (T.Taker.total tally.old) (where_fits g flags.now (by_number g flags.now)) }
    ensures lender { T.Taker.place tally.new ≡ T.Taker.place tally.old }
{
    tally.any_order();
    empty_triangles_within(grid, flags, point, Reach::Unlimited, tally)
}
