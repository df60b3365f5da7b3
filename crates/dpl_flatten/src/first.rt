//! The first of the elements of the marked structures that are looked for.

ghost use Rattle.std.specs.Prelude.{◌≡◌, ◌<◌, ◌↔◌, true, false, length, slice_index_or, IsTrue, IfOk};
ghost use Rattle.std.specs.List.{Contains};
ghost use Rattle.dpl_spec_format.specs.Tree.{elements_at};
ghost use Rattle.dpl_syntax.specs.Elements.{element_seen, IsSized};
ghost use Rattle.dpl_flatten.specs.Least.{IsLeastOf, Among, AmongMarked};
ghost use Rattle.dpl_flatten.specs.Wants.{finding_of, HasLevels};

use crate::links::ReachedGraph;
use crate::missing::is_missing;
use crate::recursion::is_recursive;
use crate::refused::is_refused;
use dpl_spec_layout::Layer;
use dpl_syntax::{Element, Library};
use dpl_walk::{earlier, note};
use std::alloc::{AllocError, Global};

/// Which elements are looked for.
#[derive(Clone, Copy)]
pub(crate) enum Wanted<'a> {
    /// References to structures that aren't there.
    Missing,
    /// References on cycles of references, by the levels of structures.
    Recursive { levels: &'a [usize] },
    /// Elements that are refused.
    Refused { layer: Layer },
}

/// Whether an element of a marked structure is looked for.
fn is_wanted(
    alloc: Global,
    lib: &Library<'_>,
    links: &ReachedGraph<'_>,
    wanted: Wanted<'_>,
    structure: u32,
    element: &Element<'_>,
) -> Result<bool, AllocError>
    requires levels { HasLevels lib.now links.now.graph.now links.now.marks.now wanted }
    requires marked { slice_index_or links.now.marks.now structure false ≡ true }
    requires inside { Contains (elements_at lib.now structure) (element_seen element.now) }
    requires sized { IsSized element.now }
    ensures { IfOk result (λ found. IsTrue found ↔ finding_of lib.now wanted.entry structure (element_seen element.now)) }
{
    match wanted {
        Wanted::Missing => Ok(is_missing(lib, element)),
        Wanted::Recursive { levels } => Ok(is_recursive(lib, links, levels, structure, element)),
        Wanted::Refused { layer } => is_refused(alloc, layer, element),
    }
}

/// The least offset of such an element of a marked structure.
fn first_in(
    alloc: Global,
    lib: &Library<'_>,
    links: &ReachedGraph<'_>,
    wanted: Wanted<'_>,
    structure: u32,
) -> Result<Option<usize>, AllocError>
    requires levels { HasLevels lib.now links.now.graph.now links.now.marks.now wanted }
    requires marked { slice_index_or links.now.marks.now structure false ≡ true }
    requires known { structure < length lib.now.structures }
    ensures { IfOk result (IsLeastOf (Among structure (elements_at lib.now structure) (finding_of lib.now wanted.entry))) }
{
    let mut first = None;
    for element in lib.elements(structure) {
        let found = is_wanted(alloc, lib, links, wanted, structure, element)?;
        first = note(first, found, element.at);
    }
    Ok(first)
}

/// The least offset of such an element of a structure, where it is marked.
fn first_where(
    alloc: Global,
    lib: &Library<'_>,
    links: &ReachedGraph<'_>,
    wanted: Wanted<'_>,
    structure: u32,
    marked: bool,
) -> Result<Option<usize>, AllocError>
    requires levels { HasLevels lib.now links.now.graph.now links.now.marks.now wanted }
    requires marked { slice_index_or links.now.marks.now structure false ≡ marked }
    requires known { structure < length lib.now.structures }
    ensures { IfOk result (IsLeastOf (λ k e. (marked ≡ true) × Among structure (elements_at lib.now structure) (finding_of lib.now wanted.entry) k e)) }
{
    if !marked {
        return Ok(None);
    }
    first_in(alloc, lib, links, wanted, structure)
}

/// The least offset of such an element of the marked structures.
pub(crate) fn first(
    alloc: Global,
    lib: &Library<'_>,
    links: &ReachedGraph<'_>,
    wanted: Wanted<'_>,
) -> Result<Option<usize>, AllocError>
    requires levels { HasLevels lib.now links.now.graph.now links.now.marks.now wanted }
    requires marks { length links.now.marks.now ≡ length lib.now.structures }
    ensures { IfOk result (IsLeastOf (AmongMarked lib.now links.now.marks.now (length links.now.marks.now) (finding_of lib.now wanted.entry))) }
{
    let mut first = None;
    for structure in 0..lib.count() {
        let marked = links.marks[structure as usize];
        let found = first_where(alloc, lib, links, wanted, structure, marked)?;
        first = earlier(first, found);
    }
    Ok(first)
}
