//! The vertices that a vertex reaches, each behind all those to which it leads.

ghost use Rattle.std.specs.Prelude.{◌≡◌, ◌+◌, ◌<◌, ◌≤◌, ◌^◌, ◌++◌, ◌∷◌, [], true, false, length, replicate, slice_set, slice_get, slice_index, IfOk, OnOk, MatchBool, MatchOption};
ghost use Rattle.dpl_links.specs.Graph.{IsGraph, targets_at};
ghost use Rattle.dpl_links.specs.Order.{IsOrder, HasCycle, IsSearch, left};

use crate::reached::unset;
use dpl_base::Listed;
use std::alloc::{AllocError, Global};

/// The vertices that a vertex reaches, each once, behind all those to which it leads.
#[derive(Drop)]
pub struct Order {
    /// For each vertex of the graph its place in the order; those of vertices out of reach say nothing.
    pub levels: Vec<u32>,
    pub vertices: Vec<u32>,
}

/// A vertex on the path of a search, and how many of its edges were gone down.
#[derive(Clone, Copy)]
pub(crate) struct Visit {
    pub(crate) vertex: u32,
    pub(crate) gone: usize,
}

/// A search that goes down every edge once, and puts each vertex behind all those to which it leads.
#[derive(Drop)]
struct Search {
    found: Vec<bool>,
    /// All edges of these were gone down.
    closed: Vec<bool>,
    levels: Vec<u32>,
    vertices: Vec<u32>,
    /// The found vertices that aren't closed: each leads to the next.
    path: Vec<Visit>,
}

fn zeros(alloc: Global, count: usize) -> Result<Vec<u32>, AllocError>
    ensures { IfOk result (λ v. v.items ≡ replicate count 0) }
{
    vec![in alloc; 0; count]
}

impl Search {
    fn new(alloc: Global, count: usize) -> Result<Search, AllocError>
        ensures found { IfOk result (λ s. s.found.items ≡ replicate count false) }
        ensures closed { IfOk result (λ s. s.closed.items ≡ replicate count false) }
        ensures levels { IfOk result (λ s. s.levels.items ≡ replicate count 0) }
        ensures vertices { IfOk result (λ s. s.vertices.items ≡ []) }
        ensures path { IfOk result (λ s. s.path.items ≡ []) }
    {
        let found = unset(alloc, count)?;
        let closed = unset(alloc, count)?;
        let levels = zeros(alloc, count)?;
        Ok(Search {
            found,
            closed,
            levels,
            vertices: Vec::new(alloc),
            path: Vec::new(alloc),
        })
    }

    /// A vertex that wasn't found is put on the path.
    fn find(&mut self, vertex: u32) -> Result<(), AllocError>
        requires { vertex < length self.old.found.items }
        ensures found { OnOk result (self.new.found.items ≡ slice_set self.old.found.items vertex true) }
        ensures path { OnOk result (self.new.path.items ≡ self.old.path.items ++ record { vertex = vertex; gone = 0 } ∷ []) }
        ensures closed { self.new.closed.items ≡ self.old.closed.items }
        ensures levels { self.new.levels.items ≡ self.old.levels.items }
        ensures vertices { self.new.vertices.items ≡ self.old.vertices.items }
    {
        self.path.push(Visit { vertex, gone: 0 })?;
        self.found[vertex as usize] = true;
        Ok(())
    }

    /// A vertex goes back on the path, with one more edge gone down.
    fn go_on(&mut self, visit: Visit) -> Result<(), AllocError>
        requires { visit.gone < 2 ^ 63 }
        ensures path { OnOk result (self.new.path.items ≡ self.old.path.items ++ record { vertex = visit.vertex; gone = visit.gone + 1 } ∷ []) }
        ensures found { self.new.found.items ≡ self.old.found.items }
        ensures closed { self.new.closed.items ≡ self.old.closed.items }
        ensures levels { self.new.levels.items ≡ self.old.levels.items }
        ensures vertices { self.new.vertices.items ≡ self.old.vertices.items }
    {
        self.path.push(Visit {
            vertex: visit.vertex,
            gone: visit.gone + 1,
        })?;
        Ok(())
    }

    /// A vertex, all of whose edges were gone down, is put behind the others.
    fn close(&mut self, vertex: u32) -> Result<(), AllocError>
        requires closed { vertex < length self.old.closed.items }
        requires levels { vertex < length self.old.levels.items }
        requires few { length self.old.vertices.items < 2 ^ 32 }
        ensures closed { OnOk result (self.new.closed.items ≡ slice_set self.old.closed.items vertex true) }
        ensures levels { OnOk result (self.new.levels.items ≡ slice_set self.old.levels.items vertex (length self.old.vertices.items)) }
        ensures vertices { OnOk result (self.new.vertices.items ≡ self.old.vertices.items ++ vertex ∷ []) }
        ensures found { self.new.found.items ≡ self.old.found.items }
        ensures path { self.new.path.items ≡ self.old.path.items }
    {
        let level = self.vertices.len() as u32;
        self.vertices.push(vertex)?;
        self.closed[vertex as usize] = true;
        self.levels[vertex as usize] = level;
        Ok(())
    }

    /// Goes down one more edge of the last vertex of the path, or back from it where there is none; says whether no cycle
    /// was found.
    fn go_down(
        &mut self,
        graph: &[Listed<u32>],
        from: u32,
        visit: Visit,
    ) -> Result<bool, AllocError>
        requires graph { IsGraph graph.now }
        requires few { length graph.now < 2 ^ 32 }
        requires search { IsSearch graph.now from self.old.found.items self.old.closed.items self.old.levels.items self.old.vertices.items (self.old.path.items ++ visit ∷ []) }
        ensures search { IfOk result (λ b. MatchBool b (IsSearch graph.now from self.new.found.items self.new.closed.items self.new.levels.items self.new.vertices.items self.new.path.items) (HasCycle graph.now from)) }
        ensures falls { IfOk result (λ b. MatchBool b (left graph.now self.new.found.items self.new.path.items < left graph.now self.old.found.items (self.old.path.items ++ visit ∷ [])) Unit) }
    {
        let Some(to) = target(graph, visit.vertex, visit.gone) else {
            self.close(visit.vertex)?;
            return Ok(true);
        };
        if self.closed[to as usize] {
            self.go_on(visit)?;
            return Ok(true);
        }
        if self.found[to as usize] {
            return Ok(false);
        }
        self.go_on(visit)?;
        self.find(to)?;
        Ok(true)
    }
}

/// Where an edge of a vertex leads; None past its last one.
pub(crate) fn target(graph: &[Listed<u32>], vertex: u32, i: usize) -> Option<u32>
    requires { vertex < length graph.now }
    ensures target { result ≡ slice_get (targets_at graph.now vertex) i }
    ensures few { length (targets_at graph.now vertex) < 2 ^ 62 }
{
    graph[vertex as usize].items().get(i).copied()
}

/// The vertices that `from` reaches, each once, behind all those to which it leads; None exactly where one of them lies on a
/// cycle.
pub fn find_order(
    alloc: Global,
    graph: &[Listed<u32>],
    from: u32,
) -> Result<Option<Order>, AllocError>
    requires graph { IsGraph graph.now }
    requires from { from < length graph.now }
    requires few { length graph.now < 2 ^ 32 }
    ensures { IfOk result (λ o. MatchOption o (HasCycle graph.now from) (λ r. IsOrder graph.now from r.levels.items r.vertices.items)) }
{
    let mut search = Search::new(alloc, graph.len())?;
    search.find(from)?;
    while let Some(visit) = search.path.pop() {
        if !search.go_down(graph, from, visit)? {
            return Ok(None);
        }
    }
    Ok(Some(Order {
        levels: search.levels,
        vertices: search.vertices,
    }))
}
