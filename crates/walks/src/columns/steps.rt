ghost use Rattle.std.specs.Prelude.{◌≡◌, ◌+◌, ◌<◌, ◌≤◌, [], ◌++◌, is_none, true};
ghost use Rattle.shape.specs.Flagged.{grid_in, flags_in};
ghost use Rattle.shape.specs.Grids.{grid_of};
ghost use Rattle.walks.specs.ColumnLists.{columns_from, first_slot};
ghost use Rattle.walks.specs.Standing.{standing_list};

use crate::numbered::standing_at;
use crate::standing::Standing;
use shape::heightfield3::HeightField;
use shape::heightfield3::flagged::FlaggedHeightField;

/// The cell after another: in the next row, or at the top of the next column.
fn after(grid: &HeightField<'_>, cell: (usize, usize)) -> (usize, usize)
    requires { (cell.0 < (grid_of grid.now).rows) × (cell.1 < (grid_of grid.now).columns) }
    ensures next { let g = grid_of grid.now in first_slot g result.0 result.1 ≡ first_slot g cell.0 cell.1 + 2 }
    ensures row { result.0 < (grid_of grid.now).rows }
    ensures column { result.1 ≤ (grid_of grid.now).columns }
{
    let (i, j) = cell;
    if i + 1 < grid.nrows() {
        (i + 1, j)
    } else {
        (0, j + 1)
    }
}

/// The standing triangles of the first cell that has any, from a cell on, and the cell after it.
// A search goes on in the middle of a column, where no nested `for` begins, and one counter for both would divide at each cell.
pub(crate) fn find(
    field: &FlaggedHeightField<'_, '_, '_>,
    start: (usize, usize),
) -> (Option<Standing>, (usize, usize))
    requires { let g = grid_in field.now in (start.0 < g.rows) × (start.1 ≤ g.columns) }
    ensures found { let g = grid_in field.now in let flags = (flags_in field.now) in columns_from g flags (first_slot g start.0 start.1) ≡ standing_list result.0 ++ columns_from g flags (first_slot g result.1.0 result.1.1) }
    ensures none { let g = grid_in field.now in is_none result.0 ≡ true → columns_from g (flags_in field.now) (first_slot g result.1.0 result.1.1) ≡ [] }
    ensures row { result.1.0 < (grid_in field.now).rows }
    ensures column { result.1.1 ≤ (grid_in field.now).columns }
{
    let grid = field.grid();
    let mut cell = start;
    while cell.1 < grid.ncols() {
        let found = standing_at(field, cell.0, cell.1);
        cell = after(grid, cell);
        if found.is_some() {
            return (found, cell);
        }
    }
    (None, cell)
}
