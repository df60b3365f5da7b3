//! The reported cycle of the first piece's component.
ghost use Rattle.std.specs.Prelude.{◌<◌, IfOk, IfSome, length};
ghost use Rattle.dpl_spec_split.specs.Cycle.{IsReported};
ghost use Rattle.dpl_spec_split.specs.Graphs.{IsOddCycle};
ghost use Rattle.dpl_crowd.specs.Crowds.{graph_in};
ghost use Rattle.dpl_crowd.specs.Walking.{AreLevelsTo, IsLeastEdge};

use crate::least::{least_level_edge, parent};
use crate::levels::start;
use crate::near::Crowd;
use dpl_base::{Edge, Id};
use std::alloc::{AllocError, Global};

/// The cycle that a level edge closes: down from where the paths of its ends meet to the smaller one, and from the larger one up again to just below.
fn cycle_through(
    alloc: Global,
    crowd: &Crowd<'_>,
    levels: &[Id],
    depth: Id,
    edge: Edge,
) -> Result<Vec<Id>, AllocError>
    requires levels { AreLevelsTo (graph_in crowd.now) 0 (length crowd.now.parts) depth levels.now }
    requires edge { IsLeastEdge (graph_in crowd.now) levels.now edge }
    ensures { IfOk result (λ cycle. IsReported (graph_in crowd.now) cycle.items) }
{
    let (mut top, mut other) = edge;
    let mut cycle = Vec::new(alloc);
    let mut rest = Vec::new(alloc);
    while top != other {
        cycle.push(top)?;
        rest.push(other)?;
        top = parent(alloc, crowd, levels, depth, top)?;
        other = parent(alloc, crowd, levels, depth, other)?;
    }
    cycle.push(top)?;
    cycle.reverse();
    cycle.extend_from_slice(&rest)?;
    Ok(cycle)
}

/// How many levels are sought, at most.
const LEVELS: Id = 4;

/// From how many pieces of one level the next level is sought, at most.
const MOST: usize = 1024;

impl<'a> Crowd<'a> {
    /// The odd cycle that is reported of the conflicts, where it is of the component of the first piece. None says nothing.
    ///
    /// Levels are found one after another from the first piece on. Pieces are looked at by number, as far as they are reached: the first one with a neighbour of a greater number on its own level has the least level edge. So no more levels are found than that takes, and no conflicts are kept. Where it would take many levels, or one from many pieces, none is told.
    ///
    /// The error: out of memory.
    pub fn first_cycle(&self, alloc: Global) -> Result<Option<Vec<Id>>, AllocError>
        ensures reported { IfOk result (λ found. IfSome found (λ cycle. IsReported (graph_in self.now) cycle.items)) }
        ensures odd { IfOk result (λ found. IfSome found (λ cycle. IsOddCycle (graph_in self.now) cycle.items)) }
    {
        let count = self.count();
        if count == 0 {
            return Ok(None);
        }
        let mut walk = start(alloc, self)?;
        let mut at = 0;
        for depth in 0..LEVELS {
            let edge = least_level_edge(alloc, self, &walk.levels, depth, &mut at)?;
            if let Some(edge) = edge {
                let cycle = cycle_through(alloc, self, &walk.levels, depth, edge)?;
                return Ok(Some(cycle));
            }
            if walk.front.is_empty() {
                return Ok(None);
            }
            if walk.front.len() > MOST {
                return Ok(None);
            }
            walk.advance(alloc, self, depth)?;
        }
        Ok(None)
    }
}
