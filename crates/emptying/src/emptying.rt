ghost use Rattle.std.specs.Prelude.{◌≡◌, [], fold};

use takers::taker::Taker;
use walks::walk::Walk;

/// Hands all the triangles of a walk to a taker, one after the other.
pub fn empty_into<W: Walk, T: Taker>(walk: &mut W, taker: &mut T)
    ensures emptied { W.rest walk.new ≡ [] }
    ensures added { T.total taker.new ≡ fold T.adds (T.total taker.old) (W.rest walk.old) }
    ensures lender { T.place taker.new ≡ T.place taker.old }
{
    // A `for` over `walk.by_ref()` was tried: that the walk is empty afterwards could not be proved.
    while let Some(triangle) = walk.next() {
        taker.add(triangle);
    }
}
