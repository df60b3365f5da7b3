//! Levels of strongly connected parts.

ghost use Rattle.std.specs.Prelude.{◌≡◌, ◌≢◌, ℕ, ◌+◌, ◌<◌, ◌≤◌, ◌^◌, ◌++◌, ◌∷◌, [], ◌⊎◌, ◌↔◌, true, false, length, replicate, slice_set, slice_index, IfOk, OnOk};
ghost use Rattle.std.specs.List.{All, Contains};
ghost use Rattle.dpl_links.specs.Graph.{IsGraph, LeadsTo, targets_at, IsMarked};
ghost use Rattle.dpl_links.specs.Parts.{AreLevels, IsSearching, AreClosed, IsOf, parts_left};
ghost use Rattle.dpl_links.specs.declared.levels.Part.{Part};

use crate::order::{Visit, target};
use crate::reached::unset;
use dpl_base::Listed;
use std::alloc::{AllocError, Global};

/// Vertices that reach one another.
#[derive(Drop)]
struct Part {
    /// The one that was found first.
    root: u32,
    vertices: Vec<u32>,
}

/// A search that goes down every edge once and closes each strongly connected part behind all those that it leads to
/// (H. N. Gabow, Path-based depth-first search for strong and biconnected components, 2000).
#[derive(Drop)]
struct Search {
    found: Vec<bool>,
    /// All edges of their parts were gone down.
    closed: Vec<bool>,
    /// When each vertex was found.
    numbers: Vec<usize>,
    levels: Vec<usize>,
    finds: Vec<u32>,
    /// The roots of the closed parts.
    roots: Vec<u32>,
    /// The parts that aren't closed: each leads to the next.
    parts: Vec<Part>,
    /// Each vertex leads to the next.
    path: Vec<Visit>,
}

fn zeros(alloc: Global, count: usize) -> Result<Vec<usize>, AllocError>
    ensures { IfOk result (λ v. v.items ≡ replicate count 0) }
{
    vec![in alloc; 0; count]
}

/// The number of a vertex, and 0 past the end.
fn number_at(numbers: &[usize], vertex: u32) -> usize
    ensures { result ≡ slice_index numbers.now vertex }
{
    numbers.get(vertex as usize).copied().unwrap_or(0)
}

/// Two parts in one.
fn join(lower: Part, upper: Part) -> Result<Part, AllocError>
    ensures root { IfOk result (λ p. p.root ≡ lower.root) }
    ensures vertices { IfOk result (λ p. (k : ℕ) → IsOf p k ↔ (IsOf lower k ⊎ IsOf upper k)) }
{
    if lower.vertices.len() < upper.vertices.len() {
        let vertices = extended(upper.vertices, &lower.vertices)?;
        return Ok(Part {
            root: lower.root,
            vertices,
        });
    }
    let vertices = extended(lower.vertices, &upper.vertices)?;
    Ok(Part {
        root: lower.root,
        vertices,
    })
}

/// The vertices with some more.
fn extended(mut vertices: Vec<u32>, more: &[u32]) -> Result<Vec<u32>, AllocError>
    ensures { IfOk result (λ v. v.items ≡ vertices.items ++ more.now) }
{
    vertices.extend_from_slice(more)?;
    Ok(vertices)
}

/// Closes vertices on a level.
fn close_all(vertices: &[u32], level: usize, closed: &mut Vec<bool>, levels: &mut Vec<usize>)
    requires closed { All (λ k. k < length closed.old.items) vertices.now }
    requires levels { All (λ k. k < length levels.old.items) vertices.now }
    ensures { AreClosed vertices.now level closed.old.items closed.new.items levels.old.items levels.new.items }
{
    for vertex in vertices {
        closed[*vertex as usize] = true;
        levels[*vertex as usize] = level;
    }
}

impl Search {
    fn new(alloc: Global, count: usize) -> Result<Search, AllocError>
        ensures found { IfOk result (λ s. s.found.items ≡ replicate count false) }
        ensures closed { IfOk result (λ s. s.closed.items ≡ replicate count false) }
        ensures numbers { IfOk result (λ s. s.numbers.items ≡ replicate count 0) }
        ensures levels { IfOk result (λ s. s.levels.items ≡ replicate count 0) }
        ensures finds { IfOk result (λ s. s.finds.items ≡ []) }
        ensures roots { IfOk result (λ s. s.roots.items ≡ []) }
        ensures parts { IfOk result (λ s. s.parts.items ≡ []) }
        ensures path { IfOk result (λ s. s.path.items ≡ []) }
    {
        let found = unset(alloc, count)?;
        let closed = unset(alloc, count)?;
        let numbers = zeros(alloc, count)?;
        let levels = zeros(alloc, count)?;
        Ok(Search {
            found,
            closed,
            numbers,
            levels,
            finds: Vec::new(alloc),
            roots: Vec::new(alloc),
            parts: Vec::new(alloc),
            path: Vec::new(alloc),
        })
    }

    /// A vertex that wasn't found is put on the path, as a part by itself.
    fn find(&mut self, alloc: Global, vertex: u32) -> Result<(), AllocError>
        requires found { vertex < length self.old.found.items }
        requires numbers { vertex < length self.old.numbers.items }
        ensures found { OnOk result (self.new.found.items ≡ slice_set self.old.found.items vertex true) }
        ensures numbers { OnOk result (self.new.numbers.items ≡ slice_set self.old.numbers.items vertex (length self.old.finds.items)) }
        ensures finds { OnOk result (self.new.finds.items ≡ self.old.finds.items ++ vertex ∷ []) }
        ensures parts { OnOk result ((p : Part) × (p.root ≡ vertex) × (p.vertices.items ≡ vertex ∷ []) × (self.new.parts.items ≡ self.old.parts.items ++ p ∷ [])) }
        ensures path { OnOk result (self.new.path.items ≡ self.old.path.items ++ record { vertex = vertex; gone = 0 } ∷ []) }
        ensures closed { self.new.closed.items ≡ self.old.closed.items }
        ensures levels { self.new.levels.items ≡ self.old.levels.items }
        ensures roots { self.new.roots.items ≡ self.old.roots.items }
    {
        let number = self.finds.len();
        self.finds.push(vertex)?;
        let mut vertices = Vec::new(alloc);
        vertices.push(vertex)?;
        self.parts.push(Part {
            root: vertex,
            vertices,
        })?;
        self.path.push(Visit { vertex, gone: 0 })?;
        self.found[vertex as usize] = true;
        self.numbers[vertex as usize] = number;
        Ok(())
    }

    /// The last part and a vertex go back, with one more edge of the vertex gone down.
    fn go_on(&mut self, top: Part, visit: Visit) -> Result<(), AllocError>
        requires { visit.gone < 2 ^ 63 }
        ensures parts { OnOk result (self.new.parts.items ≡ self.old.parts.items ++ top ∷ []) }
        ensures path { OnOk result (self.new.path.items ≡ self.old.path.items ++ record { vertex = visit.vertex; gone = visit.gone + 1 } ∷ []) }
        ensures found { self.new.found.items ≡ self.old.found.items }
        ensures numbers { self.new.numbers.items ≡ self.old.numbers.items }
        ensures finds { self.new.finds.items ≡ self.old.finds.items }
        ensures closed { self.new.closed.items ≡ self.old.closed.items }
        ensures levels { self.new.levels.items ≡ self.old.levels.items }
        ensures roots { self.new.roots.items ≡ self.old.roots.items }
    {
        self.parts.push(top)?;
        self.path.push(Visit {
            vertex: visit.vertex,
            gone: visit.gone + 1,
        })?;
        Ok(())
    }

    /// All edges of a vertex were gone down. Where it is the root of the last part, that is closed.
    fn go_back(
        &mut self,
        graph: &[Listed<u32>],
        from: u32,
        top: Part,
        visit: Visit,
    ) -> Result<(), AllocError>
        requires search { IsSearching graph.now from self.old (self.old.parts.items ++ top ∷ []) (self.old.path.items ++ visit ∷ []) }
        requires done { length (targets_at graph.now visit.vertex) ≤ visit.gone }
        ensures search { OnOk result (IsSearching graph.now from self.new self.new.parts.items self.new.path.items) }
        ensures falls { OnOk result (parts_left graph.now self.new.found.items self.new.path.items self.new.parts.items < parts_left graph.now self.old.found.items (self.old.path.items ++ visit ∷ []) (self.old.parts.items ++ top ∷ [])) }
    {
        if top.root != visit.vertex {
            self.parts.push(top)?;
            return Ok(());
        }
        close_all(
            &top.vertices,
            self.roots.len(),
            &mut self.closed,
            &mut self.levels,
        );
        self.roots.push(top.root)?;
        Ok(())
    }

    /// An edge leads before the last part, which is joined to the one before it.
    fn join_last(
        &mut self,
        graph: &[Listed<u32>],
        from: u32,
        top: Part,
        visit: Visit,
        to: u32,
    ) -> Result<(), AllocError>
        requires search { IsSearching graph.now from self.old (self.old.parts.items ++ top ∷ []) (self.old.path.items ++ visit ∷ []) }
        requires edge { LeadsTo graph.now visit.vertex to }
        requires found { IsMarked self.old.found.items to }
        requires unshut { ¬ IsMarked self.old.closed.items to }
        requires before { slice_index self.old.numbers.items to < slice_index self.old.numbers.items top.root }
        ensures search { OnOk result (IsSearching graph.now from self.new self.new.parts.items self.new.path.items) }
        ensures falls { OnOk result (parts_left graph.now self.new.found.items self.new.path.items self.new.parts.items < parts_left graph.now self.old.found.items (self.old.path.items ++ visit ∷ []) (self.old.parts.items ++ top ∷ [])) }
    {
        let Some(lower) = self.parts.pop() else {
            unreachable!()
        };
        let joined = join(lower, top)?;
        self.parts.push(joined)?;
        self.path.push(visit)?;
        Ok(())
    }

    /// Goes down one more edge of a vertex.
    fn go_to(
        &mut self,
        alloc: Global,
        graph: &[Listed<u32>],
        from: u32,
        top: Part,
        visit: Visit,
        to: u32,
    ) -> Result<(), AllocError>
        requires graph { IsGraph graph.now }
        requires search { IsSearching graph.now from self.old (self.old.parts.items ++ top ∷ []) (self.old.path.items ++ visit ∷ []) }
        requires inside { visit.gone < length (targets_at graph.now visit.vertex) }
        requires few { length (targets_at graph.now visit.vertex) < 2 ^ 62 }
        requires edge { slice_index (targets_at graph.now visit.vertex) visit.gone ≡ to }
        ensures search { OnOk result (IsSearching graph.now from self.new self.new.parts.items self.new.path.items) }
        ensures falls { OnOk result (parts_left graph.now self.new.found.items self.new.path.items self.new.parts.items < parts_left graph.now self.old.found.items (self.old.path.items ++ visit ∷ []) (self.old.parts.items ++ top ∷ [])) }
    {
        if self.closed[to as usize] {
            self.go_on(top, visit)?;
            return Ok(());
        }
        if !self.found[to as usize] {
            self.go_on(top, visit)?;
            self.find(alloc, to)?;
            return Ok(());
        }
        if number_at(&self.numbers, to) < number_at(&self.numbers, top.root) {
            self.join_last(graph, from, top, visit, to)?;
            return Ok(());
        }
        self.go_on(top, visit)?;
        Ok(())
    }

    /// Goes down one more edge of the last vertex of the path, or back from it where there is none.
    fn go_down(
        &mut self,
        alloc: Global,
        graph: &[Listed<u32>],
        from: u32,
        visit: Visit,
    ) -> Result<(), AllocError>
        requires graph { IsGraph graph.now }
        requires search { IsSearching graph.now from self.old self.old.parts.items (self.old.path.items ++ visit ∷ []) }
        ensures search { OnOk result (IsSearching graph.now from self.new self.new.parts.items self.new.path.items) }
        ensures falls { OnOk result (parts_left graph.now self.new.found.items self.new.path.items self.new.parts.items < parts_left graph.now self.old.found.items (self.old.path.items ++ visit ∷ []) self.old.parts.items) }
    {
        let Some(top) = self.parts.pop() else {
            unreachable!()
        };
        match target(graph, visit.vertex, visit.gone) {
            None => self.go_back(graph, from, top, visit),
            Some(to) => self.go_to(alloc, graph, from, top, visit, to),
        }
    }
}

/// A level for each vertex that `from` reaches: along an edge it falls, or the edge lies on a cycle, and the level stays.
pub fn find_levels(
    alloc: Global,
    graph: &[Listed<u32>],
    from: u32,
) -> Result<Vec<usize>, AllocError>
    requires graph { IsGraph graph.now }
    requires from { from < length graph.now }
    ensures levels { IfOk result (λ v. AreLevels graph.now from v.items) }
    ensures each { IfOk result (λ v. length v.items ≡ length graph.now) }
{
    let mut search = Search::new(alloc, graph.len())?;
    search.find(alloc, from)?;
    while let Some(visit) = search.path.pop() {
        search.go_down(alloc, graph, from, visit)?;
    }
    Ok(search.levels)
}
