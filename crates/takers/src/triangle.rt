use math::triangle::Triangle;

/// A triangle of a heightfield and its number.
#[derive(Clone, Copy)]
pub struct NumberedTriangle {
    pub id: u32,
    pub triangle: Triangle,
}
