//! References that lie on cycles of references.

ghost use Rattle.std.specs.Prelude.{◌≡◌, ◌↔◌, true, false, slice_index, slice_index_or, IsTrue};
ghost use Rattle.std.specs.List.{Contains};
ghost use Rattle.dpl_spec_format.specs.Tree.{elements_at};
ghost use Rattle.dpl_syntax.specs.Elements.{element_seen};
ghost use Rattle.dpl_spec_layout.specs.Faults.{IsOnCycle};
ghost use Rattle.dpl_flatten.specs.Links.{IsLevelled};

use crate::links::{ReachedGraph, target};
use dpl_syntax::{Element, Library};

/// The level of a structure, and 0 past the end.
fn level_at(levels: &[usize], structure: u32) -> usize
    ensures { result ≡ slice_index levels.now structure }
{
    levels.get(structure as usize).copied().unwrap_or(0)
}

/// Whether two structures have one level.
fn have_one_level(levels: &[usize], a: u32, b: u32) -> bool
    ensures { IsTrue result ↔ (slice_index levels.now a ≡ slice_index levels.now b) }
{
    level_at(levels, a) == level_at(levels, b)
}

/// Whether an element of a marked structure lies on a cycle of references.
pub(crate) fn is_recursive(
    lib: &Library<'_>,
    links: &ReachedGraph<'_>,
    levels: &[usize],
    structure: u32,
    element: &Element<'_>,
) -> bool
    requires links { IsLevelled lib.now links.now.graph.now links.now.marks.now levels.now }
    requires marked { slice_index_or links.now.marks.now structure false ≡ true }
    requires inside { Contains (elements_at lib.now structure) (element_seen element.now) }
    ensures { IsTrue result ↔ IsOnCycle lib.now structure (element_seen element.now) }
{
    match target(lib, element) {
        None => false,
        Some(number) => have_one_level(levels, number, structure),
    }
}
