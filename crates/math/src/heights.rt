ghost use Rattle.std.specs.Float.Ieee.{lt};
ghost use Rattle.std.specs.Prelude.{◌≡◌, Bool, Float, fold};
ghost use Rattle.std.specs.Float.{nan};
ghost use Rattle.math.specs.Heights.{first_of, lowest_of, highest_of, IsLowest, IsHighest};

/// The lowest height that is not NaN, of equal ones the last; NaN if all are.
pub fn lowest(heights: &[f32]) -> f32
    ensures value { result ≡ lowest_of heights.now }
    ensures least { IsLowest heights.now result }
{
    first(heights, |low, y| low < y)
}

/// The highest height that is not NaN, of equal ones the last; NaN if all are.
pub fn highest(heights: &[f32]) -> f32
    ensures value { result ≡ highest_of heights.now }
    ensures greatest { IsHighest heights.now result }
{
    first(heights, |high, y| high > y)
}

/// The height that comes before all others that are not NaN, of equal ones the last; NaN if all are.
fn first<F: Fn(f32, f32) -> bool>(heights: &[f32], before: F) -> f32
    ghost order: { Float → Float → Bool }
    requires callable { F.IsAlwaysCallable before }
    requires tests { (a b : Float) (r : Bool) → F.post before a b r → r ≡ order a b }
    ensures { result ≡ fold (first_of order) nan heights.now }
{
    // The project has this scan as a loop and not as a fold.
    let mut best = f32::NAN;
    for y in heights {
        best = if before(best, *y) || y.is_nan() {
            best
        } else {
            *y
        };
    }
    best
}
