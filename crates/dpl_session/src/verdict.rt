//! The colours of a graph, or the cycle that is reported of it.
ghost use Rattle.std.specs.Prelude.{IfOk};
ghost use Rattle.dpl_spec_split.specs.Graphs.{graph_of};
ghost use Rattle.dpl_spec_split.specs.Summary.{HasOddCycle};
ghost use Rattle.dpl_orient.specs.Oriented.{IsColouring};
ghost use Rattle.dpl_stars.specs.Levels.{AreEdgesBelow};
ghost use Rattle.dpl_orient.specs.Rooted.{AreSidesBelow};
ghost use Rattle.dpl_session.specs.Answered.{Decides};

use dpl_base::{Edge, Id, Listed};
use dpl_odd::odd_cycle;
use dpl_orient::{Colours, orient};
use dpl_stars::stars;
use std::alloc::{AllocError, Global};

/// What is told of the pieces of a layer.
#[derive(Drop)]
pub(crate) enum Verdict {
    /// Their conflicts have no odd cycle: the mask of each piece.
    Even(Colours),
    /// Their conflicts have one: the pieces of the reported cycle.
    Odd(Listed<Id>),
}

/// The masks of so many pieces, whose conflicts are these edges, among which there is no odd cycle.
fn coloured(
    alloc: Global,
    count: Id,
    sides: &[(Id, Id)],
    edges: &[Edge],
) -> Result<Colours, AllocError>
    requires edges { AreEdgesBelow count edges.now }
    requires sides { AreSidesBelow count sides.now }
    requires even { ¬ HasOddCycle (graph_of edges.now) }
    ensures { IfOk result (IsColouring (graph_of edges.now) count sides.now) }
{
    let joined = stars(alloc, edges)?;
    orient(alloc, count, sides, &joined)
}

/// The masks of so many pieces, whose conflicts are these edges, or the reported cycle.
///
/// The error: out of memory.
pub(crate) fn decide(
    alloc: Global,
    count: Id,
    sides: &[(Id, Id)],
    edges: &[Edge],
) -> Result<Verdict, AllocError>
    requires edges { AreEdgesBelow count edges.now }
    requires sides { AreSidesBelow count sides.now }
    ensures { IfOk result (Decides (graph_of edges.now) count sides.now) }
{
    match odd_cycle(alloc, count, edges)? {
        Some(cycle) => Ok(Verdict::Odd(Listed::of(cycle))),
        None => Ok(Verdict::Even(coloured(alloc, count, sides, edges)?)),
    }
}
