ghost use Rattle.std.specs.Prelude.{◌≡◌, None};

use cells::feature_id::FeatureId;
use cells::status::HeightFieldCellStatus;
use cells::vids::TriangleVids;
use math::aabb::Aabb;
use math::triangle::Triangle;
use math::vector::Vector;
use rings::reach::Reach;
use utils::error::HeightFieldError;

/// A call on a heightfield and its table of cell statuses, by the name of the function that it is made through.
#[derive(Clone, Copy)]
pub enum Call<'a> {
    SetCellStatus(usize, usize, HeightFieldCellStatus),
    SetScale(Vector),
    ConvertTriangleFeatureId(usize, usize, bool, FeatureId),
    MapElementsInLocalAabb(Aabb),
    /// A walk by columns that is asked so many times.
    Triangles(usize),
    /// A walk around a point that is asked with one reach after the other.
    TrianglesAroundPoint(Vector, &'a [Reach]),
    /// A walk by columns that is emptied.
    EmptyTriangles,
    /// A walk around a point that is emptied.
    EmptyTrianglesWithin(Vector, Reach),
    CellStatus(usize, usize),
    TriangleVidsAtId(u32),
    TriangleAtId(u32),
    CellAtPoint(Vector),
    RootAabb,
}

/// What a call answered.
#[derive(Clone, Copy)]
pub enum Answer {
    Done(Result<(), HeightFieldError>),
    Feature(Result<FeatureId, HeightFieldError>),
    /// How many triangles a walk gave.
    Given(Result<usize, HeightFieldError>),
    Status(Result<HeightFieldCellStatus, HeightFieldError>),
    Vids(Result<Option<TriangleVids>, HeightFieldError>),
    Drawn(Result<Option<Triangle>, HeightFieldError>),
    Cell(Option<(usize, usize)>),
    BoundingBox(Aabb),
}

/// A call and what it answered; none before it is performed.
#[derive(Clone, Copy)]
pub struct Event<'a> {
    pub call: Call<'a>,
    pub answer: Option<Answer>,
}

impl<'a> From<Call<'a>> for Event<'a> {
    ghost from_gives = { λ call event. event ≡ record { call = call; answer = None } };

    fn from(call: Call<'a>) -> Event<'a> {
        Event { call, answer: None }
    }
}
