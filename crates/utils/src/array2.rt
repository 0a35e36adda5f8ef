ghost use Rattle.std.specs.Prelude.{◌≡◌, ◌*◌, ◌^◌, ◌<◌, None, length};
ghost use Rattle.utils.specs.Tables.{length_refusal};

pub mod entries;

/// A column-major 2D array over the caller's slice.
#[derive(Drop)]
pub struct Array2<'d, T> {
    nrows: usize,
    ncols: usize,
    data: &'d [T],
    ghost fits: { length_refusal nrows ncols (length «data».now) ≡ None },
    ghost small: { nrows * ncols < 2 ^ 64 },
}
