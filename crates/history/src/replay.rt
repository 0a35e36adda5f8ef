ghost use Rattle.std.specs.Prelude.{◌≡◌, map, length, Ok, Err};
ghost use Rattle.history.specs.Runs.{state_of, Performed, KeepsLaw, KeptSinceMaking};
ghost use Rattle.shape.specs.Grids.{making_refusal};
ghost use Rattle.utils.specs.Errors.{Answers};

use crate::call::Event;
use crate::perform::perform;
use math::vector::Vector;
use shape::heightfield3::HeightField;
use takers::taker::{Taker, Tally};
use utils::error::HeightFieldError;

/// Performs the calls of a log one after the other, and writes down what each answered. The triangles that they give are added to the
/// tally.
pub fn perform_all<T: Tally>(
    grid: &mut HeightField<'_>,
    flags: &mut [u8],
    tally: &mut T,
    log: &mut [Event<'_>],
)
    ensures performed { Performed T.Taker.adds log.new (state_of grid.old flags.old) (state_of grid.new flags.new) (T.Taker.total tally.old) (T.Taker.total tally.new) }
    ensures calls { map (λ e. e.call) log.new ≡ map (λ e. e.call) log.old }
    ensures law { KeepsLaw T.Taker.adds log.new (state_of grid.old flags.old) (state_of grid.new flags.new) }
    ensures lender { T.Taker.place tally.new ≡ T.Taker.place tally.old }
{
    tally.any_order();
    for event in log.iter_mut() {
        event.answer = Some(perform(grid, flags, tally, event.call));
    }
}

/// Makes a heightfield and performs the calls of a log on it, one after the other.
pub fn make_and_perform<'d, T: Tally>(
    nrows: usize,
    ncols: usize,
    heights_zx: &'d [f32],
    flags: &mut [u8],
    scale: Vector,
    tally: &mut T,
    log: &mut [Event<'_>],
) -> Result<HeightField<'d>, HeightFieldError>
    ensures answer { Answers result (making_refusal nrows ncols (length heights_zx.now) (length flags.old) scale) (λ g. KeptSinceMaking T.Taker.adds nrows ncols heights_zx.now (length flags.old) scale log.new (state_of g flags.new) (T.Taker.total tally.old) (T.Taker.total tally.new)) }
    ensures refused { elim result [ Ok g ↦ Unit {0} | Err e ↦ (flags.new ≡ flags.old) × (log.new ≡ log.old) × (T.Taker.total tally.new ≡ T.Taker.total tally.old) ] }
    ensures calls { map (λ e. e.call) log.new ≡ map (λ e. e.call) log.old }
    ensures lender { T.Taker.place tally.new ≡ T.Taker.place tally.old }
{
    let mut grid = HeightField::new(nrows, ncols, heights_zx, flags, scale)?;
    perform_all(&mut grid, flags, tally, log);
    Ok(grid)
}
