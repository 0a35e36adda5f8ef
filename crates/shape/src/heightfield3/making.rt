ghost use Rattle.std.specs.Prelude.{◌≡◌, length, replicate, if◌then◌else◌};
ghost use Rattle.std.specs.Option.{is_none};
ghost use Rattle.utils.specs.Errors.{Answers};
ghost use Rattle.math.specs.Scales.{scale_refusal};
ghost use Rattle.shape.specs.Grids.{grid_of, made, making_refusal, rescaling_leaves, RescalingIsMaking};

use super::HeightField;
use math::aabb::heightfield_aabb;
use math::heights;
use math::scale::check_scale;
use math::vector::Vector;
use numbering::size::GridSize;
use utils::array2::Array2;
use utils::error::HeightFieldError;

impl<'d> HeightField<'d> {
    /// Initializes a new heightfield with the given rows and columns of heights and scaling factor, and clears its table of
    /// cell statuses.
    ///
    /// The heights are specified in such a way that the row index `i` of the array advances
    /// grid coordinates along the `z` axis, and the column index `j` of the array advances
    /// grid coordinates along the `x` axis.
    pub fn new(
        nrows: usize,
        ncols: usize,
        heights_zx: &'d [f32],
        flags: &mut [u8],
        scale: Vector,
    ) -> Result<HeightField<'d>, HeightFieldError>
        ensures answer { Answers result (making_refusal nrows ncols (length heights_zx.now) (length flags.old) scale) (λ g. grid_of g ≡ made nrows ncols heights_zx.now scale) }
        ensures cleared { flags.new ≡ (if is_none (making_refusal nrows ncols (length heights_zx.now) (length flags.old) scale) then replicate (length flags.old) 0 else flags.old) }
    {
        let size = GridSize::new(nrows, ncols)?;
        let heights = Array2::new(nrows, ncols, heights_zx)?;
        Array2::new(size.nrows(), size.ncols(), &*flags)?;
        check_scale(scale)?;
        let lowest = heights::lowest(heights_zx);
        let highest = heights::highest(heights_zx);
        let aabb = heightfield_aabb(lowest, highest, scale);
        flags.fill(0);
        Ok(HeightField {
            heights,
            size,
            scale,
            lowest,
            highest,
            aabb,
        })
    }

    /// Sets the scale factor applied to this heightfield.
    pub fn set_scale(&mut self, new_scale: Vector) -> Result<(), HeightFieldError>
        ensures answer { Answers result (scale_refusal new_scale) (λ _. Unit {0}) }
        ensures grid { grid_of self.new ≡ rescaling_leaves (grid_of self.old) new_scale }
    {
        check_scale(new_scale)?;
        self.scale = new_scale;
        self.aabb = heightfield_aabb(self.lowest, self.highest, new_scale);
        Ok(())
    }
}

/// Rescaling a heightfield gives what making it under the new scale gives. Nothing is computed: the contract is the statement.
pub fn rescaling_is_making()
    ensures { RescalingIsMaking }
{}
