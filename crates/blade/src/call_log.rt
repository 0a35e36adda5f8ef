//! A log of calls, performed on a panel from its making on.
use cells::status::HeightFieldCellStatus;
use history::call::{Answer, Call, Event};
use history::replay::make_and_perform;
use hull_scan::{CELLS, COLUMNS, HEIGHTS, ROWS, SCALE};
use math::vector::Vector;
use rings::reach::Reach;
use takers::count::Count;

/// Performs a log of calls, prints what each answered, and what holds at the end whatever they were.
pub(crate) fn performed(rt: &HostRuntime) -> anyhow::Result<()> {
    let point = Vector::new(0.35, 0.0, -0.1);
    let reaches = [
        Reach::Distance(0.0),
        Reach::Distance(0.0),
        Reach::Distance(0.0),
        Reach::Unlimited,
    ];
    let mut log = [
        Call::SetCellStatus(0, 0, HeightFieldCellStatus::CELL_REMOVED),
        Call::SetCellStatus(3, 0, HeightFieldCellStatus::CELL_REMOVED),
        Call::SetCellStatus(0, 0, HeightFieldCellStatus::LEFT_TRIANGLE_REMOVED),
        Call::SetScale(Vector::new(2.5, 0.0, 1.0)),
        Call::SetScale(Vector::new(2.5, 1.0, 1.0)),
        Call::EmptyTriangles,
        Call::EmptyTrianglesWithin(point, Reach::Unlimited),
        Call::TrianglesAroundPoint(point, &reaches),
    ]
    .map(Event::from);
    let mut flags = [0xff; CELLS];
    let mut tally = Count { count: 0 };
    let grid = make_and_perform(
        ROWS, COLUMNS, &HEIGHTS, &mut flags, SCALE, &mut tally, &mut log,
    )?;
    for (number, event) in (1u8..).zip(log) {
        if let Some(answer) = event.answer {
            tell(rt, number, answer)?;
        }
    }
    let (byte, width, count) = (flags[0], grid.scale().x, tally.count);
    println!(rt;
        "Cell (0, 0) has the byte of its last accepted setting, {byte}; the panel is as made at the last granted width, {width}."
    )?;
    println!(rt;
        "Emptied by columns and by rings, each standing triangle was counted once, 23 and 23; with the last 3 that makes {count}."
    )?;
    Ok(())
}

/// Prints what a call answered.
// The sentences are this program's; a `Display` of `Answer` would need some for the answers that never come up here.
fn tell(rt: &HostRuntime, number: u8, answer: Answer) -> anyhow::Result<()> {
    match answer {
        Answer::Done(Ok(())) => println!(rt; "Call {number} was done.")?,
        Answer::Done(Err(e)) => {
            let refusal = e.number();
            println!(rt; "Call {number} was refused with {refusal}.")?;
        }
        Answer::Given(Ok(given)) => println!(rt; "Call {number} gave {given} triangles.")?,
        _ => println!(rt; "Call {number} answered something else.")?,
    }
    Ok(())
}
