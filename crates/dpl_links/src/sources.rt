//! The vertices to which no edge leads.

ghost use Rattle.std.specs.Prelude.{◌≡◌, ℕ, ◌↔◌, ◌<◌, ◌^◌, ◌++◌, ◌∷◌, [], length, if◌then◌else◌, IfOk, OnOk};
ghost use Rattle.dpl_links.specs.Graph.{IsGraph, IsMarked};
ghost use Rattle.dpl_links.specs.Sources.{IsEntered, AreSources, AreUnmarked};

use crate::reached::{mark_all, unset};
use dpl_base::Listed;
use std::alloc::{AllocError, Global};

/// Marks the vertices to which some edge leads.
fn entered(alloc: Global, graph: &[Listed<u32>]) -> Result<Vec<bool>, AllocError>
    requires { IsGraph graph.now }
    ensures each { IfOk result (λ v. length v.items ≡ length graph.now) }
    ensures marks { IfOk result (λ v. (j : ℕ) → IsMarked v.items j ↔ IsEntered graph.now (length graph.now) j) }
{
    let mut marks = unset(alloc, graph.len())?;
    let mut noted = Vec::new(alloc);
    for row in graph {
        mark_all(row.items(), &mut marks, &mut noted)?;
    }
    Ok(marks)
}

/// The vertices whose marks aren't set, in order.
fn unmarked(alloc: Global, marks: &[bool]) -> Result<Vec<u32>, AllocError>
    requires { length marks.now < 2 ^ 32 }
    ensures { IfOk result (λ v. AreUnmarked marks.now v.items) }
{
    let mut found = Vec::new(alloc);
    for (k, marked) in marks.iter().enumerate() {
        note_unmarked(k as u32, *marked, &mut found)?;
    }
    Ok(found)
}

fn note_unmarked(vertex: u32, marked: bool, found: &mut Vec<u32>) -> Result<(), AllocError>
    ensures { OnOk result (found.new.items ≡ (if marked then found.old.items else found.old.items ++ vertex ∷ [])) }
{
    if !marked {
        found.push(vertex)?;
    }
    Ok(())
}

/// The vertices to which no edge leads, in order.
pub fn find_sources(alloc: Global, graph: &[Listed<u32>]) -> Result<Vec<u32>, AllocError>
    requires graph { IsGraph graph.now }
    requires few { length graph.now < 2 ^ 32 }
    ensures { IfOk result (λ v. AreSources graph.now v.items) }
{
    let marks = entered(alloc, graph)?;
    unmarked(alloc, &marks)
}
