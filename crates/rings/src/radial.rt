use crate::cell_rings::CellRings;
use crate::place::RingPlace;
use std::marker::Model;
use takers::triangle::NumberedTriangle;

pub mod methods;
pub mod within;

/// A walk through all the triangles around the given point, after vertical projection on the heightfield.
///
/// It goes ring by ring around the cell closest to the point. Each call of `next` says how far it may go.
#[derive(Drop)]
pub struct HeightFieldRadialTriangles<'g, 'd, 'f> {
    rings: CellRings<'g, 'd, 'f>,
    /// The place after the last cell.
    place: RingPlace,
    /// The other triangle of the last cell, if it is to come yet.
    pending: Option<NumberedTriangle>,
}

impl<'g, 'd, 'f> Model for HeightFieldRadialTriangles<'g, 'd, 'f> {
    ghost use Rattle.rings.specs.RingCursors.{RingCursor};

    ghost Value = { RingCursor };

    ghost use Rattle.rings.specs.Cursors.{cursor_of, IsNear};

    ghost view = { cursor_of };

    ghost invariant = { IsNear };
}
