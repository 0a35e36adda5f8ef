//! One scanned hull panel from beginning to end: made, trimmed, numbered, searched, rescaled, and calls refused.
#![tactic(auto)]

ghost use Rattle.std.specs.Prelude.{◌≤◌, length};

use cells::feature_id::FeatureId;
use cells::status::HeightFieldCellStatus;
use hull_scan::{CELLS, COLUMNS, HEIGHTS, ROWS, SCALE};
use math::aabb::Aabb;
use math::vector::Vector;
use points::cell_search::CellSearch;
use search::boxes::BoxSearch;
use search::triangles::Triangles;
use shape::heightfield3::HeightField;
use takers::band::height_band::HeightBand;
use takers::cut_list::CutList;
use takers::mark_sheet::MarkSheet;
use utils::error::HeightFieldError;
use walks::columns::methods::triangles;

fn main(rt: HostRuntime) -> anyhow::Result<()> {
    let mut flags = [0xff; CELLS];
    let mut grid = HeightField::new(ROWS, COLUMNS, &HEIGHTS, &mut flags, SCALE)?;
    describe(&rt, &grid)?;
    trim(&rt, &grid, &mut flags)?;
    numbers(&rt, &grid, &flags)?;
    importer(&rt, &grid, &flags)?;
    guard(&rt, &grid, &flags)?;
    queue(&rt, &grid, &flags)?;
    grid.set_scale(Vector::new(2.5, 1.0, 1.0))?;
    println!(rt; "Rescaled to a length of 2.5 and a width of 1.")?;
    describe(&rt, &grid)?;
    refusals(&rt, &mut grid, &mut flags)
}

/// Prints the size and the box of the grid.
fn describe(rt: &HostRuntime, grid: &HeightField<'_>) -> anyhow::Result<()> {
    let (rows, columns) = grid.num_cells_ij();
    println!(rt; "The panel has {rows} rows and {columns} columns of cells.")?;
    let aabb = grid.root_aabb();
    println!(rt; "Its box runs from {} to {}.", aabb.mins, aabb.maxs)?;
    let (width, height) = (grid.cell_width(), grid.cell_height());
    let x = grid.x_at(1)?;
    println!(rt; "A cell is {width} wide and {height} high; column 1 starts at x = {x}.")?;
    Ok(())
}

/// Trims two cells.
fn trim(rt: &HostRuntime, grid: &HeightField<'_>, flags: &mut [u8]) -> anyhow::Result<()> {
    grid.set_cell_status(flags, 0, 0, HeightFieldCellStatus::LEFT_TRIANGLE_REMOVED)?;
    grid.set_cell_status(flags, 2, 3, HeightFieldCellStatus::CELL_REMOVED)?;
    let first = grid.cell_status(flags, 0, 0)?.bits();
    let last = grid.cell_status(flags, 2, 3)?.bits();
    println!(rt;
        "Trimmed the left triangle of cell (0, 0) and all of cell (2, 3): their statuses are {first} and {last}."
    )?;
    Ok(())
}

/// Asks for a seam from both sides, and for a triangle's vertices and faces.
fn numbers(rt: &HostRuntime, grid: &HeightField<'_>, flags: &[u8]) -> anyhow::Result<()> {
    let near = grid.convert_triangle_feature_id(flags, 1, 1, false, FeatureId::Edge(1))?;
    let far = grid.convert_triangle_feature_id(flags, 1, 2, true, FeatureId::Edge(0))?;
    println!(rt;
        "The seam between cells (1, 1) and (1, 2) is {near:?} from the first and {far:?} from the second."
    )?;
    let front = grid.convert_triangle_feature_id(flags, 1, 2, true, FeatureId::Face(0))?;
    let back = grid.convert_triangle_feature_id(flags, 1, 2, true, FeatureId::Face(1))?;
    println!(rt;
        "The left triangle of cell (1, 2) has the front {front:?} and the back {back:?}."
    )?;
    if let Some(vids) = grid.triangle_vids_at_id(flags, 7)? {
        let (a, b, c) = (vids.a, vids.b, vids.c);
        println!(rt; "Triangle 7 joins the vertices {a}, {b} and {c}.")?;
    }
    if let (None, None) = grid.triangles_vids_at(flags, 2, 3)? {
        println!(rt; "Cell (2, 3) has no triangle left.")?;
    }
    Ok(())
}

/// Asks for the cells of two points, and where a triangle is drawn.
fn importer(rt: &HostRuntime, grid: &HeightField<'_>, flags: &[u8]) -> anyhow::Result<()> {
    if let Some((i, j)) = grid.cell_at_point(Vector::new(0.35, 0.0, -0.1)) {
        println!(rt; "The point at x = 0.35 and z = -0.1 lies in cell ({i}, {j}).")?;
    }
    let off = Vector::new(1.3, 0.0, 0.0);
    if grid.cell_at_point(off).is_none() {
        let (i, j) = grid.closest_cell_at_point(off);
        println!(rt;
            "The point at x = 1.3 and z = 0 is off the panel; the closest cell is ({i}, {j})."
        )?;
    }
    if let Some(triangle) = grid.triangle_at_id(flags, 7)? {
        println!(rt; "Triangle 7 starts at {}.", triangle.a)?;
    }
    Ok(())
}

/// Searches a box: lists its triangles, and measures and marks them.
// The tables have fixed lengths, as those that a saw's controller lends.
fn guard(rt: &HostRuntime, grid: &HeightField<'_>, flags: &[u8]) -> anyhow::Result<()> {
    let aabb = Aabb {
        mins: Vector::new(0.0, 0.0, -0.1),
        maxs: Vector::new(0.5, 0.2, 0.1),
    };
    let mut ids = [0; 8];
    let found = list(grid, flags, &aabb, &mut ids)?;
    let (a, b, c, d) = (ids[0], ids[1], ids[2], ids[3]);
    println!(rt;
        "The box from (0, 0, -0.1) to (0.5, 0.2, 0.1) touches {found} triangles: {a}, {b}, {c} and {d}."
    )?;
    let wider = Aabb {
        mins: Vector::new(-0.1, -1.0, -0.2),
        maxs: Vector::new(0.7, 1.0, 0.2),
    };
    let mut more = [0; 24];
    let all = list(grid, flags, &wider, &mut more)?;
    let kept = count_kept(&ids[0..4], &more);
    println!(rt;
        "The wider box from (-0.1, -1, -0.2) to (0.7, 1, 0.2) touches {all} triangles, {kept} of the first {found} among them."
    )?;
    let mut band = HeightBand::new();
    grid.map_elements_in_local_aabb(flags, &aabb, &mut band)?;
    if let Some(heights) = band.band() {
        let (low, high) = (heights.lowest(), heights.highest());
        println!(rt; "Their corners lie between {low} and {high}.")?;
    }
    let mut marks = [0; 23];
    if let Err(e) = MarkSheet::new(&mut marks).check(grid.size()) {
        let number = e.number();
        println!(rt; "A sheet of 23 marks is refused with {number}: {e}.")?;
    }
    Ok(())
}

/// Lists the triangles that a box touches, and says how many there are.
fn list(
    grid: &HeightField<'_>,
    flags: &[u8],
    aabb: &Aabb,
    ids: &mut [u32],
) -> Result<usize, HeightFieldError> {
    let mut found = CutList::new(ids);
    grid.map_elements_in_local_aabb(flags, aabb, &mut found)?;
    Ok(found.len())
}

/// Walks the panel column by column, as far as the third triangle.
fn queue(rt: &HostRuntime, grid: &HeightField<'_>, flags: &[u8]) -> anyhow::Result<()> {
    for (place, triangle) in (1..4u8).zip(triangles(grid, flags)?) {
        let id = triangle.id;
        println!(rt; "Triangle {id} is number {place} of the walk by columns.")?;
    }
    Ok(())
}

/// How many numbers of one list are in another.
fn count_kept(ids: &[u32], more: &[u32]) -> usize
    ensures { result ≤ length ids.now }
{
    ids.iter().filter(|&id| more.contains(id)).count()
}

/// Makes calls that are refused, and shows that nothing changed.
fn refusals(rt: &HostRuntime, grid: &mut HeightField<'_>, flags: &mut [u8]) -> anyhow::Result<()> {
    if let Err(e) = grid.set_cell_status(flags, 3, 0, HeightFieldCellStatus::CELL_REMOVED) {
        let number = e.number();
        println!(rt; "Setting the status of cell (3, 0) is refused with {number}: {e}.")?;
    }
    if let Err(e) = grid.set_scale(Vector::new(2.5, 0.0, 1.0)) {
        let number = e.number();
        let kept = grid.scale().y;
        println!(rt; "A scale of 0 along y is refused with {number}: {e}. It is still {kept}.")?;
    }
    Ok(())
}
