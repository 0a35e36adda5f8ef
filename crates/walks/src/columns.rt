use shape::heightfield3::flagged::FlaggedHeightField;
use std::marker::Model;
use takers::triangle::NumberedTriangle;

pub mod methods;
pub mod steps;

/// A walk through all the triangles of a heightfield, column after column.
#[derive(Drop)]
pub struct HeightFieldTriangles<'g, 'd, 'f> {
    field: FlaggedHeightField<'g, 'd, 'f>,
    /// The row and the column of the next cell.
    next_cell: (usize, usize),
    /// The other triangle of the cell before it, if it is to come yet.
    pending: Option<NumberedTriangle>,
}

impl<'g, 'd, 'f> Model for HeightFieldTriangles<'g, 'd, 'f> {
    ghost use Rattle.std.specs.Prelude.{List};
    ghost use Rattle.takers.specs.declared.triangle.NumberedTriangle.{NumberedTriangle as Numbered};

    ghost Value = { List Numbered };

    ghost use Rattle.walks.specs.ColumnWalks.{columns_left, IsColumnWalk};

    ghost view = { columns_left };

    ghost invariant = { IsColumnWalk };
}
