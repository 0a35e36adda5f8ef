ghost use Rattle.std.specs.Prelude.{◌≡◌};
ghost use Rattle.utils.specs.Errors.{Answers};
ghost use Rattle.math.specs.Scales.{in_range, in_scale, scale_refusal};

use crate::vector::Vector;
use utils::error::HeightFieldError;

/// The least scale along an axis, 2^-20.
const MIN_SCALE: f32 = 0.00000095367431640625;

/// The greatest scale along an axis, 2^20.
const MAX_SCALE: f32 = 1048576.0;

/// Whether a scale is in range along every axis. A NaN is not.
pub fn is_scale(scale: Vector) -> bool
    ensures { result ≡ in_scale scale }
{
    in_range(scale.x) && in_range(scale.y) && in_range(scale.z)
}

/// Refuses a scale that is out of range along some axis.
pub fn check_scale(scale: Vector) -> Result<(), HeightFieldError>
    ensures { Answers result (scale_refusal scale) (λ _. Unit {0}) }
{
    if is_scale(scale) {
        Ok(())
    } else {
        Err(HeightFieldError::ScaleOutOfRange)
    }
}

fn in_range(s: f32) -> bool
    ensures { result ≡ in_range s }
{
    s >= MIN_SCALE && s <= MAX_SCALE
}
