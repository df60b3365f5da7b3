//! The parents of the numbers of a graph, and the paths through them.
ghost use Rattle.std.specs.Prelude.{◌≡◌, ◌≢◌, ◌<◌, ℕ, List, Some, length, vec_len, slice_index, IfOk};
ghost use Rattle.std.specs.List.{Contains};
ghost use Rattle.dpl_spec_split.specs.Graphs.{graph_of};
ghost use Rattle.dpl_stars.specs.Levels.{AreEdgesBelow};
ghost use Rattle.dpl_odd.specs.Paths.{AreLowest, IsLowered, IsForest, IsClosed};
ghost use Rattle.dpl_odd.specs.Tables.{AreClosed, IsClosing};

use dpl_list::{Edge, Id, Listed};
use dpl_stars::Levels;
use std::alloc::{AllocError, Global};

/// For each number its root, its level and its parent, the least neighbour one level lower.
#[derive(Drop)]
pub struct Forest {
    pub levels: Levels,
    pub parents: Vec<Id>,
}

/// Takes `other`, a neighbour, as the parent of `child` if it lies on a lower level and is less than the one before.
fn lower(parents: &mut [Id], levels: &[Id], child: Id, other: Id)
    requires as_many { length parents.old ≡ length levels.now }
    requires child_in { child < length levels.now }
    requires other_in { other < length levels.now }
    ensures { IsLowered levels.now child other parents.old parents.new }
{
    if levels[other as usize] < levels[child as usize] && other < parents[child as usize] {
        parents[child as usize] = other;
    }
}

/// The least neighbour of each number on a lower level; `n` where there is none.
pub fn parents_of(
    alloc: Global,
    n: Id,
    edges: &[Edge],
    levels: &[Id],
) -> Result<Vec<Id>, AllocError>
    requires below { AreEdgesBelow n edges.now }
    requires as_many { length levels.now ≡ n }
    ensures { IfOk result (λ parents. AreLowest (graph_of edges.now) n levels.now parents.items) }
{
    let mut parents = vec![in alloc; n; n as usize]?;
    for (u, v) in edges {
        lower(&mut parents, levels, *u, *v);
        lower(&mut parents, levels, *v, *u);
    }
    Ok(parents)
}

impl Forest {
    /// The cycle that the edge from `u` to `v`, two numbers of one level, closes: down from where their parents meet to
    /// `u`, and from `v` up again to just below.
    pub fn cycle_through(&self, alloc: Global, u: Id, v: Id) -> Result<Vec<Id>, AllocError>
        requires forest { IsForest (vec_len self.now.levels.levels) self.now.levels.roots.items self.now.levels.levels.items self.now.parents.items }
        requires u_in { u < vec_len self.now.levels.levels }
        requires v_in { v < vec_len self.now.levels.levels }
        requires apart { u ≢ v }
        requires root { slice_index self.now.levels.roots.items u ≡ slice_index self.now.levels.roots.items v }
        requires level { slice_index self.now.levels.levels.items u ≡ slice_index self.now.levels.levels.items v }
        ensures { IfOk result (λ cycle. IsClosed self.now.levels.levels.items self.now.parents.items u v cycle.items) }
    {
        let (mut top, mut other) = (u, v);
        let mut cycle = Vec::new(alloc);
        let mut rest = Vec::new(alloc);
        while top != other {
            cycle.push(top)?;
            rest.push(other)?;
            top = self.parents[top as usize];
            other = self.parents[other as usize];
        }
        cycle.push(top)?;
        cycle.reverse();
        cycle.extend_from_slice(&rest)?;
        Ok(cycle)
    }

    /// The cycles that these edges close, each between two numbers of one component and one level, in order.
    pub fn cycles_through(
        &self,
        alloc: Global,
        edges: &[Option<Edge>],
    ) -> Result<Vec<Listed<Id>>, AllocError>
        requires forest { IsForest (vec_len self.now.levels.levels) self.now.levels.roots.items self.now.levels.levels.items self.now.parents.items }
        requires closing { (e : ℕ × ℕ) → Contains edges.now (Some e) → IsClosing (vec_len self.now.levels.levels) self.now.levels.roots.items self.now.levels.levels.items e }
        ensures { IfOk result (λ cycles. (roots : List ℕ) × AreClosed self.now.levels.levels.items self.now.parents.items edges.now (length edges.now) roots cycles.items) }
    {
        let mut cycles = Vec::new(alloc);
        for edge in edges {
            if let Some((u, v)) = *edge {
                let cycle = self.cycle_through(alloc, u, v)?;
                cycles.push(Listed::of(cycle))?;
            }
        }
        Ok(cycles)
    }
}
