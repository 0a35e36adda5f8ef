//! Boxes on the lines between cells, run.
use math::aabb::Aabb;
use math::vector::Vector;
use search::boxes::BoxSearch;
use shape::heightfield3::HeightField;
use std::test::Fail;
use takers::cut_list::CutList;
use utils::error::HeightFieldError;

/// Lists the triangles of a flat grid of 4 × 4 cells that a box touches, and says how many there are.
fn touched(mins: Vector, maxs: Vector, ids: &mut [u32]) -> Result<usize, HeightFieldError> {
    let heights = [0.0; 25];
    let mut flags = [0; 16];
    let grid = HeightField::new(5, 5, &heights, &mut flags, Vector::new(1.0, 1.0, 1.0))?;
    let mut list = CutList::new(ids);
    grid.map_elements_in_local_aabb(&flags, &Aabb { mins, maxs }, &mut list)?;
    Ok(list.len())
}

#[test]
fn flat_box_on_a_line_has_both_neighbours(rt: HostRuntime) -> Result<(), Fail> {
    let mut ids = [0; 6];
    let found = touched(
        Vector::new(0.25, 0.0, -0.5),
        Vector::new(0.25, 0.0, -0.5),
        &mut ids,
    )?;
    assert_eq!(rt; found, 4);
    assert_eq!(rt; ids, [8, 24, 12, 28, 0, 0]);
    Ok(())
}

#[test]
fn box_from_the_border_has_the_last_cell(rt: HostRuntime) -> Result<(), Fail> {
    let mut ids = [0; 6];
    let found = touched(
        Vector::new(0.5, 0.0, 0.5),
        Vector::new(7.0, 0.0, 7.0),
        &mut ids,
    )?;
    assert_eq!(rt; found, 2);
    assert_eq!(rt; ids, [15, 31, 0, 0, 0, 0]);
    Ok(())
}
