//! The odd cycle that is reported for a graph which can't be two-coloured, and those of all its components.
#![tactic(auto)]

mod forest;
mod level;
mod table;

ghost use Rattle.std.specs.Prelude.{◌≡◌, ◌<◌, IfOk, IfNone, IfSome, [], length, slice_index_or};
ghost use Rattle.std.specs.List.{All};
ghost use Rattle.dpl_spec_split.specs.Graphs.{IsOddCycle, graph_of};
ghost use Rattle.dpl_spec_split.specs.Cycle.{IsReported};
ghost use Rattle.dpl_spec_split.specs.Summary.{HasOddCycle};
ghost use Rattle.dpl_stars.specs.Levels.{AreEdgesBelow};
ghost use Rattle.dpl_odd.specs.All.{AreOddCycles};

use crate::forest::{Forest, parents_of};
use crate::level::least_level_edge;
use crate::table::least_level_edges;
use dpl_list::{Edge, Id, Listed};
use dpl_stars::levels_of;
use std::alloc::{AllocError, Global};

/// An odd cycle of the graph of these edges, which join numbers below `n`, if there is one.
///
/// Of the components that have one, the one with the least number is taken. Levels are distances from that number, and
/// the parent of a number is its least neighbour one level lower. Of the edges between two numbers of one level the
/// least is taken, by its smaller and then by its larger number, and the parents of both are followed until they meet.
/// The cycle is the number where they meet, down to the smaller one, then the larger one, up to just below the meeting.
pub fn odd_cycle(alloc: Global, n: Id, edges: &[Edge]) -> Result<Option<Vec<Id>>, AllocError>
    requires { AreEdgesBelow n edges.now }
    ensures none { IfOk result (λ found. IfNone found (¬ HasOddCycle (graph_of edges.now))) }
    ensures reported { IfOk result (λ found. IfSome found (λ cycle. IsReported (graph_of edges.now) cycle.items)) }
    ensures odd { IfOk result (λ found. IfSome found (λ cycle. IsOddCycle (graph_of edges.now) cycle.items)) }
{
    let levels = levels_of(alloc, n, edges)?;
    let Some((u, v)) = least_level_edge(&levels, edges) else {
        return Ok(None);
    };
    let parents = parents_of(alloc, n, edges, &levels.levels)?;
    let forest = Forest { levels, parents };
    let cycle = forest.cycle_through(alloc, u, v)?;
    Ok(Some(cycle))
}

/// For each component with an odd cycle, by its least number, the cycle that `odd_cycle` would give of it alone, in time linear in `n` and the number of edges.
pub fn odd_cycles(alloc: Global, n: Id, edges: &[Edge]) -> Result<Vec<Listed<Id>>, AllocError>
    requires { AreEdgesBelow n edges.now }
    ensures cycles { IfOk result (λ found. AreOddCycles (graph_of edges.now) found.items) }
    ensures odd { IfOk result (λ found. All (IsOddCycle (graph_of edges.now)) found.items) }
    ensures none { IfOk result (λ found. found.items ≡ [] → ¬ HasOddCycle (graph_of edges.now)) }
    ensures first { IfOk result (λ found. 0 < length found.items → IsReported (graph_of edges.now) (slice_index_or found.items 0 [])) }
{
    let levels = levels_of(alloc, n, edges)?;
    let least = least_level_edges(alloc, &levels, edges)?;
    let parents = parents_of(alloc, n, edges, &levels.levels)?;
    let forest = Forest { levels, parents };
    forest.cycles_through(alloc, &least)
}
