//! How many edges lie in components with an odd cycle.
ghost use Rattle.std.specs.Prelude.{◌≡◌, ◌<◌, IfOk, count_by, length, vec_len};
ghost use Rattle.std.specs.List.{All, AllPairs};
ghost use Rattle.dpl_spec_split.specs.Graphs.{Precedes, graph_of};
ghost use Rattle.dpl_stars.specs.Levels.{AreEdgesBelow};
ghost use Rattle.dpl_view.specs.Clashes.{HasTangled};
ghost use Rattle.dpl_view.specs.Marks.{AreMarks, is_marked};

use dpl_base::{Edge, Id};
use dpl_stars::{Levels, levels_of};
use std::alloc::{AllocError, Global};

/// Marks for each number whether an edge joins two numbers of one level in the component of which it is the least number.
fn marks_of(alloc: Global, levels: &Levels, edges: &[Edge]) -> Result<Vec<bool>, AllocError>
    requires as_many { vec_len levels.now.roots ≡ vec_len levels.now.levels }
    requires inside { All (λ root. root < vec_len levels.now.levels) levels.now.roots.items }
    requires below { AreEdgesBelow (vec_len levels.now.levels) edges.now }
    ensures marks { IfOk result (λ marks. AreMarks levels.now.roots.items levels.now.levels.items edges.now (length edges.now) marks.items) }
    ensures each { IfOk result (λ marks. vec_len marks ≡ vec_len levels.now.levels) }
{
    let mut marks = vec![in alloc; false; levels.levels.len()]?;
    for (u, v) in edges {
        if levels.levels[*u as usize] == levels.levels[*v as usize] {
            let root = levels.roots[*u as usize];
            marks[root as usize] = true;
        }
    }
    Ok(marks)
}

/// How many edges lie in components whose least number is marked.
fn marked_count(levels: &Levels, marks: &[bool], edges: &[Edge]) -> u64
    requires as_many { vec_len levels.now.roots ≡ vec_len levels.now.levels }
    requires inside { All (λ root. root < vec_len levels.now.levels) levels.now.roots.items }
    requires each { length marks.now ≡ vec_len levels.now.levels }
    requires below { AreEdgesBelow (vec_len levels.now.levels) edges.now }
    ensures { result ≡ count_by (is_marked levels.now.roots.items marks.now) edges.now }
{
    let mut count: u64 = 0;
    for (u, _) in edges {
        let root = levels.roots[*u as usize];
        if marks[root as usize] {
            count += 1;
        }
    }
    count
}

/// How many of these edges, which join numbers below `n`, lie in components with an odd cycle, in time linear in `n` and the number of edges.
pub(crate) fn tangled_count(alloc: Global, n: Id, edges: &[Edge]) -> Result<u64, AllocError>
    requires below { AreEdgesBelow n edges.now }
    requires ordered { AllPairs Precedes edges.now }
    ensures { IfOk result (HasTangled (graph_of edges.now)) }
{
    let levels = levels_of(alloc, n, edges)?;
    let marks = marks_of(alloc, &levels, edges)?;
    let count = marked_count(&levels, &marks, edges);
    Ok(count)
}
