ghost use Rattle.std.specs.Prelude.{◌≡◌};
ghost use Rattle.math.specs.Boxes.{box_of};

use crate::vector::Vector;

/// An axis-aligned bounding box.
#[derive(Clone, Copy, Debug)]
pub struct Aabb {
    pub mins: Vector,
    pub maxs: Vector,
}

/// The box of a heightfield with the given lowest and highest height and scale.
pub fn heightfield_aabb(lowest: f32, highest: f32, scale: Vector) -> Aabb
    ensures { result ≡ box_of lowest highest scale }
{
    let hx = scale.x * 0.5;
    let hz = scale.z * 0.5;
    Aabb {
        mins: Vector::new(-hx, lowest * scale.y, -hz),
        maxs: Vector::new(hx, highest * scale.y, hz),
    }
}
