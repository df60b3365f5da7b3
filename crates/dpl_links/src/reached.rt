//! Which vertices a vertex reaches.

ghost use Rattle.std.specs.Prelude.{◌≡◌, ◌<◌, false, length, replicate, IfOk, OnOk};
ghost use Rattle.std.specs.List.{All, Contains};
ghost use Rattle.dpl_links.specs.Graph.{IsGraph, AreReached};
ghost use Rattle.dpl_links.specs.Marks.{Marks};

use dpl_base::Listed;
use std::alloc::{AllocError, Global};

/// Marks a vertex, and notes it if it wasn't marked.
fn mark(vertex: u32, marks: &mut Vec<bool>, noted: &mut Vec<u32>) -> Result<(), AllocError>
    requires { vertex < length marks.old.items }
    ensures { OnOk result (Marks (λ k. k ≡ vertex) marks.old.items marks.new.items noted.old.items noted.new.items) }
{
    if marks[vertex as usize] {
        return Ok(());
    }
    noted.push(vertex)?;
    marks[vertex as usize] = true;
    Ok(())
}

/// Marks vertices, and notes those that weren't marked.
pub(crate) fn mark_all(
    vertices: &[u32],
    marks: &mut Vec<bool>,
    noted: &mut Vec<u32>,
) -> Result<(), AllocError>
    requires { All (λ k. k < length marks.old.items) vertices.now }
    ensures { OnOk result (Marks (Contains vertices.now) marks.old.items marks.new.items noted.old.items noted.new.items) }
{
    for vertex in vertices {
        mark(*vertex, marks, noted)?;
    }
    Ok(())
}

/// So many marks, none of which is set.
pub(crate) fn unset(alloc: Global, count: usize) -> Result<Vec<bool>, AllocError>
    ensures { IfOk result (λ v. v.items ≡ replicate count false) }
{
    vec![in alloc; false; count]
}

/// The vertices that `from` reaches, itself among them: one mark for each vertex of the graph.
pub fn reach(alloc: Global, graph: &[Listed<u32>], from: u32) -> Result<Vec<bool>, AllocError>
    requires graph { IsGraph graph.now }
    requires from { from < length graph.now }
    ensures { IfOk result (λ v. AreReached graph.now from v.items) }
{
    let mut marks = unset(alloc, graph.len())?;
    let mut noted = Vec::new(alloc);
    mark(from, &mut marks, &mut noted)?;
    while let Some(vertex) = noted.pop() {
        mark_all(graph[vertex as usize].items(), &mut marks, &mut noted)?;
    }
    Ok(marks)
}
