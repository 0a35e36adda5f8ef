ghost use Rattle.std.specs.Prelude.{◌≡◌, ℕ};
ghost use Rattle.takers.specs.declared.triangle.NumberedTriangle.{NumberedTriangle as Item};
ghost use Rattle.takers.specs.Totals.{IsTriangle};

use crate::triangle::NumberedTriangle;

/// What triangles are handed to, one after the other.
pub trait Taker {
    /// What the taker adds up.
    ghost Total: { Type 0 };

    /// The total so far.
    ghost total: { Self → Total };

    /// The rule by which one triangle is added.
    ghost adds: { Total → Item → Total };

    /// Which memory of the caller's the taker writes.
    ghost place: { Self → ℕ };

    /// Adds one triangle.
    // A call that hands over a list states both clauses of it: one name for the two would take all four members as arguments.
    fn add(&mut self, triangle: NumberedTriangle)
        ensures added { total self.new ≡ adds (total self.old) triangle }
        ensures lender { place self.new ≡ place self.old };
}

/// A taker whose total does not depend on the order in which triangles are added.
pub trait Tally: Taker {
    /// Any two triangles, added in either order to any total, end alike. Nothing is computed.
    fn any_order(&self)
        ensures { (s : Self.Taker.Total) (t u : Item) → IsTriangle t → IsTriangle u → Self.Taker.adds (Self.Taker.adds s t) u ≡ Self.Taker.adds (Self.Taker.adds s u) t };
}
