ghost use Rattle.std.specs.Prelude.{ℕ};
ghost use Rattle.takers.specs.Totals.{counted};

use crate::taker::{Taker, Tally};
use crate::triangle::NumberedTriangle;

/// Counts triangles, stopping at the largest `u32`.
#[derive(Clone, Copy, Debug)]
pub struct Count {
    pub count: u32,
}

impl Taker for Count {
    ghost Total = { ℕ };

    ghost total = { λ s. s.count };

    ghost adds = { λ n _. counted n };

    ghost place = { λ _. 0 };

    fn add(&mut self, _triangle: NumberedTriangle) {
        self.count = self.count.saturating_add(1);
    }
}

impl Tally for Count {
    fn any_order(&self) {}
}
