ghost use Rattle.std.specs.Prelude.{◌≡◌};
ghost use Rattle.std.specs.Float.{ratio_floor, ratio_ceil};
ghost use Rattle.quantize.specs.Quantize.{held, held64, position_among};

use std::num::{saturating_f32_to_isize, saturating_f32_to_usize};

/// Where the coordinate `v` lies among cells of the given width, counted in cells.
pub fn position(v: f32, width: f32) -> f32
    ensures { result ≡ position_among v width }
{
    (v + 0.5) / width
}

/// The greatest whole number not above `x`, held to `0..=top`; 0 for a NaN.
// Two roundings to two ranges: each of the four bodies is one call, which a function over the rounding would only lengthen.
pub fn floor_held(x: f32, top: usize) -> usize
    ensures { result ≡ held ratio_floor x top }
{
    saturating_f32_to_usize(x).min(top)
}

/// The least whole number not below `x`, held to `0..=top`; 0 for a NaN.
pub fn ceil_held(x: f32, top: usize) -> usize
    ensures { result ≡ held ratio_ceil x top }
{
    saturating_f32_to_usize(x.ceil()).min(top)
}

/// The greatest whole number not above `x`, held to the range of the type; 0 for a NaN.
pub fn floor_unclamped(x: f32) -> isize
    ensures { result ≡ held64 ratio_floor ratio_ceil x }
{
    saturating_f32_to_isize(x.floor())
}

/// The least whole number not below `x`, held to the range of the type; 0 for a NaN.
pub fn ceil_unclamped(x: f32) -> isize
    ensures { result ≡ held64 ratio_ceil ratio_floor x }
{
    saturating_f32_to_isize(x.ceil())
}
