/// An identifier of a feature of a triangle, or of the whole heightfield.
#[derive(Clone, Copy, PartialEq, Eq, Debug)]
pub enum FeatureId {
    /// Shape-dependent identifier of a vertex.
    Vertex(u32),
    /// Shape-dependent identifier of an edge.
    Edge(u32),
    /// Shape-dependent identifier of a face.
    Face(u32),
    /// Unknown identifier.
    Unknown,
}
