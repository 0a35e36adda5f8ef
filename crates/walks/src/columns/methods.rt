ghost use Rattle.std.specs.Iterator.{at_most};
ghost use Rattle.std.specs.Prelude.{◌≡◌, length};
ghost use Rattle.utils.specs.Errors.{Answers};
ghost use Rattle.shape.specs.Grids.{grid_of};
ghost use Rattle.shape.specs.Tables.{table_refusal};
ghost use Rattle.walks.specs.ColumnLists.{column_list};
ghost use Rattle.walks.specs.Walks.{Gives};

use super::HeightFieldTriangles;
use super::steps::find;
use crate::walk::Walk;
use shape::heightfield3::HeightField;
use takers::triangle::NumberedTriangle;
use utils::error::HeightFieldError;

/// A walk through all the triangles of a heightfield.
pub fn triangles<'g, 'd, 'f>(
    grid: &'g HeightField<'d>,
    flags: &'f [u8],
) -> Result<HeightFieldTriangles<'g, 'd, 'f>, HeightFieldError>
    ensures { let g = grid_of grid.now in Answers result (table_refusal g flags.now) (λ w. w ≡ column_list g flags.now) }
{
    Ok(HeightFieldTriangles {
        field: grid.with_flags(flags)?,
        next_cell: (0, 0),
        pending: None,
    })
}

impl Iterator for HeightFieldTriangles<'_, '_, '_> {
    type Item = NumberedTriangle;

    ghost next_gives = { λ w r after. Gives w r after };

    ghost remaining = { λ w. at_most (length w) };

    // Like `next` of the cursor of rings but for the search, which is handed a reach there: a step over both would take it as a closure.
    // It is inlined where the walk is emptied, so that a taker that reads no corner has none drawn.
    #[inline(always)]
    fn next(&mut self) -> Option<NumberedTriangle> {
        if let Some(triangle) = self.pending.take() {
            return Some(triangle);
        }
        let (found, after) = find(&self.field, self.next_cell);
        self.next_cell = after;
        let standing = found?;
        self.pending = standing.second;
        Some(standing.first)
    }
}

impl Walk for HeightFieldTriangles<'_, '_, '_> {
    ghost rest = { λ w. w };

    ghost gives = { λ w. (tt, tt, λ r after met. met) };
}
