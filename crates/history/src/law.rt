ghost use Rattle.std.specs.Prelude.{List};
ghost use Rattle.history.specs.Law.{OnlySettlingMoves, GridLaw};
ghost use Rattle.history.specs.Past.{State, Making, Past};
ghost use Rattle.history.specs.declared.call.Event.{Event as Happening};

use takers::taker::{Taker, Tally};

/// Whatever a heightfield was made of, and whatever was called on it since, in whatever order: the law holds. The tally only says what
/// is added up; nothing is computed, and the contract is the statement.
pub fn grid_keeps_the_law<T: Tally>(tally: &T)
    ensures { (m : Making) (es : List Happening) (s : State) → Past m es s → GridLaw T.Taker.adds m es s }
{
    tally.any_order();
}

/// Only an accepted setting of a status and a granted rescaling change the statuses or the scale. Nothing is computed: the contract is
/// the statement.
pub fn only_settling_moves()
    ensures { OnlySettlingMoves }
{}
