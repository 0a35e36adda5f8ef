ghost use Rattle.shape.specs.Grids.{grid_of};
ghost use Rattle.walk_laws.specs.Reaching.{ShorterReachBegins, GivenBeginsAllRings, NoneLeavesAll};
ghost use Rattle.walk_laws.specs.RingNumbers.{RingsHoldEachOnce, RingsAreColumnsInAnotherOrder};
ghost use Rattle.walk_laws.specs.SharedVertices.{SharedVerticesAreInOneSpot};
ghost use Rattle.walk_laws.specs.Walked.{ColumnsHoldEachOnce};

use shape::heightfield3::HeightField;

/// The column list holds each standing triangle once, and no other. Nothing is computed: the contract is the statement.
pub fn columns_hold_each_once(_grid: &HeightField<'_>)
    ensures { ColumnsHoldEachOnce (grid_of _grid.now) }
{}

/// The rings up to any one hold each standing triangle that lies at most so far from the centre, once, ring by ring, and no other; and
/// all rings together hold what the column list holds. Nothing is computed: the contract is the statement.
pub fn rings_hold_each_once(_grid: &HeightField<'_>)
    ensures each { RingsHoldEachOnce (grid_of _grid.now) }
    ensures order { RingsAreColumnsInAnotherOrder (grid_of _grid.now) }
{}

/// A shorter reach gives the beginning of a longer one's list; whatever reach each call brings, what came so far begins the list of all
/// rings; and after none the same is to come as before. Nothing is computed: the contract is the statement.
pub fn shorter_reach_begins(_grid: &HeightField<'_>)
    ensures shorter { ShorterReachBegins (grid_of _grid.now) }
    ensures given { GivenBeginsAllRings (grid_of _grid.now) }
    ensures stays { NoneLeavesAll }
{}

/// Walked triangles that share a vertex number share its coordinates, under one scale and any statuses. Nothing is computed: the
/// contract is the statement.
pub fn shared_vertices_are_in_one_spot(_grid: &HeightField<'_>)
    ensures { SharedVerticesAreInOneSpot (grid_of _grid.now) }
{}
