//! The limits of the calls, run.
use cells::status::HeightFieldCellStatus;
use math::scale::check_scale;
use math::vector::Vector;
use numbering::size::GridSize;
use shape::heightfield3::HeightField;
use std::test::Fail;
use utils::error::HeightFieldError;

#[test]
fn sizes(rt: HostRuntime) {
    assert_eq!(rt; GridSize::new(1 << 14, 1 << 14).err(), None);
    assert_eq!(rt;
        GridSize::new(1 << 14, (1 << 14) + 1).err(),
        Some(HeightFieldError::TooManyPoints)
    );
    assert_eq!(rt; GridSize::new(1 << 24, 16).err(), None);
    assert_eq!(rt;
        GridSize::new((1 << 24) + 1, 2).err(),
        Some(HeightFieldError::TooManyPoints)
    );
    assert_eq!(rt;
        GridSize::new(usize::MAX, usize::MAX).err(),
        Some(HeightFieldError::TooManyPoints)
    );
    assert_eq!(rt;
        GridSize::new(usize::MAX, 1).err(),
        Some(HeightFieldError::TooFewPoints)
    );
}

#[test]
fn scales(rt: HostRuntime) {
    assert_eq!(rt;
        check_scale(Vector::new(1048576.0, 1048576.0, 1048576.0)).err(),
        None
    );
    assert_eq!(rt;
        check_scale(Vector::new(1.0, 1048576.125, 1.0)).err(),
        Some(HeightFieldError::ScaleOutOfRange)
    );
    assert_eq!(rt;
        check_scale(Vector::new(1.0, 1.0, 0.00000095367431640625)).err(),
        None
    );
    assert_eq!(rt;
        check_scale(Vector::new(1.0, 1.0, 0.00000095367426)).err(),
        Some(HeightFieldError::ScaleOutOfRange)
    );
    assert_eq!(rt;
        check_scale(Vector::new(f32::NAN, 1.0, 1.0)).err(),
        Some(HeightFieldError::ScaleOutOfRange)
    );
}

#[test]
fn statuses(rt: HostRuntime) -> Result<(), Fail> {
    let heights = [0.0; 16];
    let mut flags = [0; 9];
    let grid = HeightField::new(4, 4, &heights, &mut flags, Vector::new(1.0, 1.0, 1.0))?;
    let all = HeightFieldCellStatus::from_bits_retain(7);
    let more = HeightFieldCellStatus::from_bits_retain(8);
    assert_eq!(rt; grid.set_cell_status(&mut flags, 0, 1, all).err(), None);
    assert_eq!(rt;
        grid.set_cell_status(&mut flags, 0, 1, more).err(),
        Some(HeightFieldError::InvalidStatus)
    );
    assert_eq!(rt;
        grid.set_cell_status(&mut flags, 3, 0, all).err(),
        Some(HeightFieldError::IndexOutOfRange)
    );
    assert_eq!(rt;
        grid.cell_status(&flags[0..8], 3, 0).err(),
        Some(HeightFieldError::LengthMismatch)
    );
    assert_eq!(rt; flags, [0, 0, 0, 7, 0, 0, 0, 0, 0]);
    Ok(())
}
