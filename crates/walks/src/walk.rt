ghost use Rattle.std.specs.Iterator.{IsFinite};
ghost use Rattle.std.specs.Prelude.{List, Option};
ghost use Rattle.takers.specs.declared.triangle.NumberedTriangle.{NumberedTriangle as Numbered};
ghost use Rattle.walks.specs.Walks.{Gives};

use takers::triangle::NumberedTriangle;

/// A walk over numbered triangles: an iterator of which the list of triangles still to come is known.
pub trait Walk: Iterator<Item = NumberedTriangle> {
    /// The triangles still to come.
    ghost rest: { Self → List Numbered };

    /// The next triangle may be asked for at any time: it is the first of those still to come, which leaves the rest; none where there
    /// is none.
    ghost gives: { (s : Self) → Self.can_next s × IsFinite (Self.remaining s) × ((r : Option Numbered) (t : Self) → Self.next_gives s r t → Gives (rest s) r (rest t)) };
}
