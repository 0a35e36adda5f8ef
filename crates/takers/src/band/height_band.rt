ghost use Rattle.std.specs.Prelude.{◌≡◌, None, Option as Maybe};
ghost use Rattle.takers.specs.Bands.{Heights, banded, heights_of, joined_by};

use super::Band;
use crate::taker::{Taker, Tally};
use crate::triangle::NumberedTriangle;

/// Keeps the lowest and the highest corner of the triangles that come up. A NaN is passed over, and -0 is below +0.
#[derive(Clone, Copy)]
pub struct HeightBand {
    band: Option<Band>,
}

impl HeightBand {
    /// No band: no corner came up yet.
    pub fn new() -> HeightBand
        ensures { result.band ≡ None }
    {
        HeightBand { band: None }
    }

    /// The lowest and the highest corner so far; none before the first that is a number.
    pub fn band(&self) -> Option<Band>
        ensures { result ≡ self.now.band }
    {
        self.band
    }
}

impl Taker for HeightBand {
    ghost Total = { Maybe Heights };

    ghost total = { λ s. heights_of s.band };

    ghost adds = { λ s t. banded s t };

    ghost place = { λ _. 0 };

    fn add(&mut self, triangle: NumberedTriangle) {
        let corners = triangle.triangle;
        let first = joined(self.band, corners.a.y);
        let second = joined(first, corners.b.y);
        self.band = joined(second, corners.c.y);
    }
}

/// The band with one more height.
fn joined(band: Option<Band>, y: f32) -> Option<Band>
    ensures { heights_of result ≡ joined_by (heights_of band) y }
{
    if y.is_nan() {
        return band;
    }
    let Some(b) = band else {
        return Some(Band {
            lowest: y,
            highest: y,
        });
    };
    let lowest = if y.total_cmp(&b.lowest).is_lt() {
        y
    } else {
        b.lowest
    };
    let highest = if b.highest.total_cmp(&y).is_lt() {
        y
    } else {
        b.highest
    };
    Some(Band { lowest, highest })
}

impl Tally for HeightBand {
    fn any_order(&self) {}
}
