//! A panel walked around the blade, ring by ring, and a log of calls performed on it.
#![tactic(auto)]

ghost use Rattle.std.specs.Prelude.{◌≡◌, ◌<◌, [], length, map, MatchResult};
ghost use Rattle.rings.specs.RingCursors.{to_come_within};

use arrayvec::ArrayVec;
use cells::status::HeightFieldCellStatus;
use hull_scan::{CELLS, COLUMNS, HEIGHTS, ROWS, SCALE};
use math::vector::Vector;
use rings::radial::HeightFieldRadialTriangles;
use rings::radial::methods::triangles_around_point;
use rings::radial::within::triangles_within;
use rings::reach::Reach;
use shape::heightfield3::HeightField;
use std::alloc::{AllocError, Global};
use utils::error::HeightFieldError;
use walks::walk::Walk;

mod call_log;

/// How many triangles the panel has.
const TRIANGLES: usize = 2 * CELLS;

fn main(rt: HostRuntime) -> anyhow::Result<()> {
    let mut flags = [0xff; CELLS];
    let grid = HeightField::new(ROWS, COLUMNS, &HEIGHTS, &mut flags, SCALE)?;
    grid.set_cell_status(
        &mut flags,
        0,
        0,
        HeightFieldCellStatus::LEFT_TRIANGLE_REMOVED,
    )?;
    grid.set_cell_status(&mut flags, 2, 3, HeightFieldCellStatus::CELL_REMOVED)?;
    blade(&rt, &grid, &flags)?;
    call_log::performed(&rt)
}

/// Walks the panel from the blade outwards, ring by ring: with a short reach, with a longer one, and with one that grows on the way.
fn blade(rt: &HostRuntime, grid: &HeightField<'_>, flags: &[u8]) -> anyhow::Result<()> {
    let point = Vector::new(0.35, 0.0, -0.1);
    let near = triangles_within(grid, flags, point, Reach::Distance(0.0))?;
    let ids = ids_of(rt.alloc(), near)?;
    let far = triangles_within(grid, flags, point, Reach::Distance(0.3))?;
    let more = ids_of(rt.alloc(), far)?;
    let (few, many) = (ids.len(), more.len());
    println!(rt;
        "Around x = 0.35 and z = -0.1 a walk with a reach of 0 gives {few} triangles, one with a reach of 0.3 gives {many}."
    )?;
    if few < many && more.starts_with(&ids) {
        println!(rt; "The numbers of the first walk begin those of the second.")?;
    }
    let mut walk = triangles_around_point(grid, flags, point)?;
    give_all(&mut walk, Reach::Distance(0.0));
    if let Some(triangle) = walk.next(Reach::Unlimited) {
        let id = triangle.id;
        println!(rt;
            "Once a reach of 0 gives no more, an unlimited one goes on with triangle {id}."
        )?;
    }
    Ok(())
}

/// Lists the numbers of all the triangles of a walk. It takes no memory, and fails only at a walk of more triangles than the panel has.
fn ids_of<W: Walk>(alloc: Global, walk: W) -> Result<ArrayVec<u32, TRIANGLES>, AllocError>
    ensures { MatchResult result (λ ids. ids.items ≡ map (λ t. t.id) (W.rest walk)) (λ _. 24 < length (W.rest walk)) }
{
    ArrayVec::from_iter(alloc, walk.map(|triangle| triangle.id))
}

/// Asks a walk with one reach until it gives no more.
fn give_all(walk: &mut HeightFieldRadialTriangles<'_, '_, '_>, reach: Reach)
    ensures { to_come_within walk.new reach ≡ [] }
{
    while walk.next(reach).is_some() {}
}
