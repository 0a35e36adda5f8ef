ghost use Rattle.std.specs.Prelude.{◌≡◌};
ghost use Rattle.math.specs.Lines.{unit_width, unit_line};

/// The width of a cell along an axis with `n` cells, excluding the scale factor.
pub fn unit_width(n: f32) -> f32
    ensures { result ≡ unit_width n }
{
    1.0 / n
}

/// The coordinate of the `j`-th line between cells of the given width, excluding the scale factor.
pub fn unit_line(width: f32, j: f32) -> f32
    ensures { result ≡ unit_line width j }
{
    -0.5 + width * j
}
