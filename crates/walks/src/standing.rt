use takers::triangle::NumberedTriangle;

/// The standing triangles of a cell that has any: the left one comes first if it stands.
#[derive(Clone, Copy)]
pub struct Standing {
    pub first: NumberedTriangle,
    pub second: Option<NumberedTriangle>,
}
