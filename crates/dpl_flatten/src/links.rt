//! The graph of a layout's references.

ghost use Rattle.std.specs.Prelude.{◌≡◌, ◌<◌, ◌≤◌, ◌↔◌, ◌++◌, ◌^◌, ℕ, length, IfOk, OnOk};
ghost use Rattle.std.specs.List.{Contains};
ghost use Rattle.std.specs.Option.{option_to_list};
ghost use Rattle.dpl_spec_format.specs.Tree.{Element as TreeElement, elements_at, HasPoints};
ghost use Rattle.dpl_syntax.specs.Elements.{element_seen};
ghost use Rattle.dpl_spec_layout.specs.Structures.{target_of, Refers};
ghost use Rattle.dpl_links.specs.Graph.{IsGraph};
ghost use Rattle.dpl_flatten.specs.Links.{IsGraphOf};

use dpl_base::Listed;
use dpl_syntax::{Body, Element, Library};
use std::alloc::{AllocError, Global};

/// The graph of a layout's references, and marks of the structures that its top reaches.
#[derive(Clone, Copy)]
pub(crate) struct ReachedGraph<'a> {
    pub(crate) graph: &'a [Listed<u32>],
    pub(crate) marks: &'a [bool],
}

/// The number of the structure that a reference refers to; None where the element is no reference, or the structure
/// isn't there.
pub(crate) fn target(lib: &Library<'_>, element: &Element<'_>) -> Option<u32>
    ensures { result ≡ target_of lib.now (element_seen element.now) }
{
    match element.body {
        Body::Sref { name, .. } => lib.structure(name),
        Body::Aref { name, .. } => lib.structure(name),
        _ => None,
    }
}

/// Notes the structure that an element refers to.
fn note_target(
    lib: &Library<'_>,
    element: &Element<'_>,
    found: &mut Vec<u32>,
) -> Result<(), AllocError>
    ensures { OnOk result (found.new.items ≡ found.old.items ++ option_to_list (target_of lib.now (element_seen element.now))) }
{
    if let Some(number) = target(lib, element) {
        found.push(number)?;
    }
    Ok(())
}

/// The structures that the references of a structure refer to.
fn targets(alloc: Global, lib: &Library<'_>, structure: u32) -> Result<Listed<u32>, AllocError>
    requires { structure < length lib.now.structures }
    ensures row { IfOk result (λ l. (j : ℕ) → Contains l j ↔ Refers lib.now structure j) }
    ensures sized { OnOk result ((e : TreeElement) → Contains (elements_at lib.now structure) e → HasPoints e.body) }
{
    let mut found = Vec::new(alloc);
    for element in lib.elements(structure) {
        note_target(lib, element, &mut found)?;
    }
    Ok(Listed::of(found))
}

/// The graph of the references.
pub(crate) fn graph_of(alloc: Global, lib: &Library<'_>) -> Result<Vec<Listed<u32>>, AllocError>
    ensures graph { IfOk result (λ v. IsGraphOf lib.now v.items) }
    ensures known { IfOk result (λ v. IsGraph v.items) }
    ensures few { IfOk result (λ v. length v.items ≤ 2 ^ 26) }
{
    let mut graph = Vec::new(alloc);
    for structure in 0..lib.count() {
        let row = targets(alloc, lib, structure)?;
        graph.push(row)?;
    }
    Ok(graph)
}
