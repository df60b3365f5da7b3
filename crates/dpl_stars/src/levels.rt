//! The components of a graph on numbers, and how far their numbers lie from the least one.
ghost use Rattle.std.specs.Prelude.{◌↔◌, IsTrue, IfOk};
ghost use Rattle.dpl_stars.specs.Levels.{AreEdgesBelow, AreLevels};
ghost use Rattle.dpl_stars.specs.Laws.{LevelsShowOddCycles, OddRootsAreRoots, ReportedIsOdd, RootsShowOddCycles};

use crate::chains::chains_of;
use crate::reached::nothing;
use dpl_list::{Edge, Id};
use std::alloc::{AllocError, Global};

/// Where each number lies: `roots` has the least number of its component, `levels` how many edges it is away from that.
#[derive(Drop)]
pub struct Levels {
    pub roots: Vec<Id>,
    pub levels: Vec<Id>,
}

/// Whether each edge joins two different numbers below `n`, the smaller first.
pub fn are_edges_below(n: Id, edges: &[Edge]) -> bool
    ensures { IsTrue result ↔ AreEdgesBelow n edges.now }
{
    edges.iter().all(|e| e.0 < e.1 && e.1 < n)
}

/// The root and the level of each number below `n`, in time linear in `n` and the number of edges.
pub fn levels_of(alloc: Global, n: Id, edges: &[Edge]) -> Result<Levels, AllocError>
    requires { AreEdgesBelow n edges.now }
    ensures { IfOk result (λ l. AreLevels edges.now n l.roots.items l.levels.items) }
{
    let chains = chains_of(alloc, n, edges)?;
    let mut reached = nothing(alloc, n)?;
    for v in 0..n {
        if reached.roots[v as usize] == n {
            reached.spread(n, edges, &chains, v)?;
        }
    }
    Ok(Levels {
        roots: reached.roots,
        levels: reached.levels,
    })
}

/// A component has an odd cycle exactly where an edge joins two numbers of one level, below any of its numbers and so
/// below its least; the root of the reported cycle is the least number of its component; that cycle is odd.
pub fn odd_cycle_laws()
    ensures by_component { LevelsShowOddCycles }
    ensures by_root { RootsShowOddCycles }
    ensures least { OddRootsAreRoots }
    ensures reported { ReportedIsOdd }
{}
