ghost use Rattle.std.specs.Float.Ieee.{div};
ghost use Rattle.std.specs.Prelude.{◌≡◌};
ghost use Rattle.quantize.specs.Quantize.{held};
ghost use Rattle.rings.specs.Reaches.{most_rings, allowed};
ghost use Rattle.shape.specs.Grids.{grid_of};
ghost use Rattle.std.specs.Float.{ratio_ceil, binary32};

use quantize::held::ceil_held;
use shape::heightfield3::HeightField;

/// How far a walk around a point may go.
// In an `Option<f32>` a missing distance would read as no reach at all.
#[derive(Clone, Copy)]
pub enum Reach {
    /// As far as the heightfield goes.
    Unlimited,
    /// This far: no ring is entered that lies farther off. The largest finite distance is unlimited too.
    Distance(f32),
}

impl Reach {
    /// The number of the last ring of cells that may be entered with this reach.
    pub fn max_ring(self, grid: &HeightField<'_>) -> usize
        ensures { result ≡ allowed (grid_of grid.now) self }
    {
        match self {
            Reach::Unlimited => usize::MAX,
            Reach::Distance(max_dist) => {
                if max_dist == f32::MAX {
                    return usize::MAX;
                }
                let columns = spanned(max_dist, grid.cell_width());
                let rows = spanned(max_dist, grid.cell_height());
                columns.max(rows)
            }
        }
    }
}

/// How many cells of the given width a distance spans, a part of a cell counted whole.
fn spanned(max_dist: f32, width: f32) -> usize
    ensures { result ≡ held ratio_ceil (div binary32 max_dist width) most_rings }
{
    ceil_held(max_dist / width, usize::MAX)
}
