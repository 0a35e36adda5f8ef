ghost use Rattle.std.specs.Prelude.{◌≡◌, true, false};
ghost use Rattle.shape.specs.Flagged.{grid_in, flags_in};
ghost use Rattle.shape.specs.Grids.{grid_of};
ghost use Rattle.shape.specs.Tables.{table_refusal, pattern_of};
ghost use Rattle.std.specs.Option.{option_to_list};
ghost use Rattle.search.specs.BoxLists.{cell_list, numbered_of};
ghost use Rattle.search.specs.Corners.{triangle_of};
ghost use Rattle.search.specs.Triangles.{corners_at};
ghost use Rattle.utils.specs.Errors.{Answers};
ghost use Rattle.walks.specs.ColumnLists.{drawn_at};
ghost use Rattle.walks.specs.Standing.{standing_list};

use crate::standing::Standing;
use math::triangle::Triangle;
use search::corners::CellCorners;
use search::triangles::corners_at;
use shape::heightfield3::HeightField;
use shape::heightfield3::flagged::{FlaggedHeightField, HeightFieldCell};
use takers::triangle::NumberedTriangle;
use utils::error::HeightFieldError;

/// The left and the right triangle of the cell `(i, j)` with their numbers, each if it stands.
pub fn numbered_triangles_at(
    grid: &HeightField<'_>,
    flags: &[u8],
    i: usize,
    j: usize,
) -> Result<(Option<NumberedTriangle>, Option<NumberedTriangle>), HeightFieldError>
    ensures { let g = grid_of grid.now in Answers result (table_refusal g flags.now) (λ v. (option_to_list v.0 ≡ drawn_at g flags.now i j true) × (option_to_list v.1 ≡ drawn_at g flags.now i j false)) }
{
    let field = grid.with_flags(flags)?;
    Ok(numbered_pair_at(&field, i, j))
}

/// The standing triangles of the cell `(i, j)`, if it has any.
pub fn standing_at(field: &FlaggedHeightField<'_, '_, '_>, i: usize, j: usize) -> Option<Standing>
    ensures { let g = grid_in field.now in standing_list result ≡ cell_list g (flags_in field.now) (corners_at g i j) i j }
{
    match numbered_pair_at(field, i, j) {
        (Some(first), second) => Some(Standing { first, second }),
        (None, Some(first)) => Some(Standing {
            first,
            second: None,
        }),
        (None, None) => None,
    }
}

/// The left and the right triangle of a cell with their numbers, each if it stands.
fn numbered_pair_at(
    field: &FlaggedHeightField<'_, '_, '_>,
    i: usize,
    j: usize,
) -> (Option<NumberedTriangle>, Option<NumberedTriangle>)
    ensures left { option_to_list result.0 ≡ drawn_at (grid_in field.now) (flags_in field.now) i j true }
    ensures right { option_to_list result.1 ≡ drawn_at (grid_in field.now) (flags_in field.now) i j false }
{
    let Ok(cell) = field.cell(i, j) else {
        return (None, None);
    };
    if cell.pattern(true).is_none() && cell.pattern(false).is_none() {
        return (None, None);
    }
    let corners = corners_at(&cell);
    (
        numbered(&cell, &corners, true),
        numbered(&cell, &corners, false),
    )
}

/// The left or right triangle of a cell with these corners and its number, if it stands.
// `numbered` of `search` but for its corners: they are picked by a call of its own, so that none is where a walk is emptied into a taker that
// reads no corner. A box search, whose takers mostly do, has them picked in place.
#[inline(always)]
fn numbered(
    cell: &HeightFieldCell<'_, '_>,
    corners: &CellCorners,
    left: bool,
) -> Option<NumberedTriangle>
    ensures { let c = cell.now in result ≡ numbered_of (grid_of c.grid.now) corners.now c.at.i c.at.j left (pattern_of c.status.0 left) }
{
    let zigzag = cell.pattern(left)?;
    let id = cell.triangle_id(left);
    let triangle = picked(corners, zigzag, left);
    Some(NumberedTriangle { id, triangle })
}

/// The left or right triangle of a cell with these corners.
#[inline(never)]
fn picked(corners: &CellCorners, zigzag: bool, left: bool) -> Triangle
    ensures { result ≡ triangle_of corners.now zigzag left }
{
    corners.triangle(zigzag, left)
}
