/// The vertex numbers of a triangle.
#[derive(Clone, Copy, PartialEq, Eq, Debug)]
pub struct TriangleVids {
    pub a: u32,
    pub b: u32,
    pub c: u32,
}
