//! How many points a layout places, layer by layer.

ghost use Rattle.std.specs.Prelude.{◌≡◌, ◌<◌, IfErr, IfOk, OnOk, length, map};
ghost use Rattle.dpl_spec_layout.specs.Faults.{IsFirstFault, IsWhole};
ghost use Rattle.dpl_spec_layout.specs.declared.Layer.{Layer as ChosenLayer};
ghost use Rattle.dpl_links.specs.Graph.{AreReached};
ghost use Rattle.dpl_flatten.specs.Links.{IsLinked, IsOrdered};
ghost use Rattle.dpl_flatten.specs.Totals.{capped_points};

use crate::count::totals;
use crate::faults::{find_missing, find_recursion};
use crate::links::{ReachedGraph, graph_of};
use dpl_links::{Order, reach};
use dpl_spec_layout::{FlattenFault, Layer};
use dpl_syntax::Library;
use std::alloc::{AllocError, Global};

/// How many points of each of these layers the structure `top` places, itself and through all references below it: those of boundaries, boxes, and paths whose width isn't 0. 4,294,967,295 stands for so many or more.
///
/// # Errors
/// The missing structure of least offset, then the recursion of least offset, of the structures that the top reaches; `NoMemory`.
pub fn count_points(
    alloc: Global,
    lib: &Library<'_>,
    top: u32,
    layers: &[Layer],
) -> Result<Vec<u32>, FlattenFault>
    requires { top < length lib.now.structures }
    ensures counts { IfOk result (λ v. v.items ≡ map (capped_points lib.now top) layers.now) }
    ensures whole { OnOk result (IsWhole lib.now top) }
    ensures fault { IfErr result (λ f. (layer : ChosenLayer) → IsFirstFault lib.now top layer f) }
{
    let graph = graph_of(alloc, lib)?;
    let marks = reach(alloc, graph.as_slice(), top)?;
    let links = ReachedGraph {
        graph: graph.as_slice(),
        marks: marks.as_slice(),
    };
    find_missing(alloc, lib, top, &links)?;
    let order = find_recursion(alloc, lib, top, &links)?;
    Ok(counts_by(alloc, lib, top, layers, &links, &order)?)
}

/// How many points of each of these layers the top places, in the order each structure comes behind those that it refers to.
fn counts_by(
    alloc: Global,
    lib: &Library<'_>,
    top: u32,
    layers: &[Layer],
    links: &ReachedGraph<'_>,
    order: &Order,
) -> Result<Vec<u32>, AllocError>
    requires links { IsLinked lib.now links.now.graph.now links.now.marks.now }
    requires reached { AreReached links.now.graph.now top links.now.marks.now }
    requires order { IsOrdered lib.now links.now.graph.now links.now.marks.now order.now.levels.items order.now.vertices.items }
    requires top { top < length lib.now.structures }
    ensures { IfOk result (λ v. v.items ≡ map (capped_points lib.now top) layers.now) }
{
    let mut counts = Vec::new(alloc);
    for layer in layers {
        let count = points_of(alloc, lib, top, *layer, links, order)?;
        counts.push(count)?;
    }
    Ok(counts)
}

/// How many points of a layer the top places.
fn points_of(
    alloc: Global,
    lib: &Library<'_>,
    top: u32,
    layer: Layer,
    links: &ReachedGraph<'_>,
    order: &Order,
) -> Result<u32, AllocError>
    requires links { IsLinked lib.now links.now.graph.now links.now.marks.now }
    requires reached { AreReached links.now.graph.now top links.now.marks.now }
    requires order { IsOrdered lib.now links.now.graph.now links.now.marks.now order.now.levels.items order.now.vertices.items }
    requires top { top < length lib.now.structures }
    ensures { IfOk result (λ n. n ≡ capped_points lib.now top layer) }
{
    let counted = totals(alloc, lib, layer, links, order)?;
    Ok(counted[top as usize])
}
