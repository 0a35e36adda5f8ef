ghost use Rattle.std.specs.Prelude.{◌≡◌};
ghost use Rattle.takers.specs.Totals.{Listed, listed};

use crate::taker::Taker;
use crate::triangle::NumberedTriangle;

/// Lists the numbers of the triangles that come up, as many as the caller's table holds, and counts the rest.
// The filled part has its length beside it, for the table is the caller's: takers allocate nothing.
#[derive(Drop)]
pub struct CutList<'a> {
    ids: &'a mut [u32],
    len: usize,
    rest: u32,
}

impl<'a> CutList<'a> {
    /// An empty list over the caller's table.
    pub fn new(ids: &'a mut [u32]) -> CutList<'a>
        ensures { (result.ids.now ≡ ids.old) × (result.len ≡ 0) × (result.rest ≡ 0) × (result.ids.ghost_name ≡ ids.entry.ghost_name) }
    {
        CutList {
            ids,
            len: 0,
            rest: 0,
        }
    }

    /// How many numbers the table holds so far.
    pub fn len(&self) -> usize
        ensures { result ≡ self.now.len }
    {
        self.len
    }

    /// How many triangles came up after the table was full, at most the largest `u32`.
    pub fn rest(&self) -> u32
        ensures { result ≡ self.now.rest }
    {
        self.rest
    }
}

impl Taker for CutList<'_> {
    ghost Total = { Listed };

    ghost total = { λ s. record { ids = s.ids.now; len = s.len; rest = s.rest } };

    ghost adds = { λ s t. listed s t.id };

    ghost place = { λ s. s.ids.ghost_name };

    fn add(&mut self, triangle: NumberedTriangle) {
        let at = self.len;
        if at < self.ids.len() {
            self.ids[at] = triangle.id;
            self.len = at + 1;
        } else {
            self.rest = self.rest.saturating_add(1);
        }
    }
}
