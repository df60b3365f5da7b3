//! Elements that are refused.

ghost use Rattle.std.specs.Prelude.{◌≡◌, ◌<◌, ◌↔◌, true, length, None, IsTrue, IfOk, IfSome};
ghost use Rattle.std.specs.List.{Contains};
ghost use Rattle.dpl_spec_format.specs.Tree.{Element as TreeElement, elements_at};
ghost use Rattle.dpl_syntax.specs.Elements.{body_seen, element_seen, IsSized};
ghost use Rattle.dpl_spec_layout.specs.Elements.{IsRefusedFor};
ghost use Rattle.dpl_spec_layout.specs.Faults.{IsRefused};
ghost use Rattle.dpl_reference.specs.Faults.{IsFaultBy};
ghost use Rattle.dpl_flatten.specs.Drawn.{IsRefusal, IsRefusalWhere, IsRefusalAmong, IsRefusalOf, IsTakenAt, HasRefusalAt};

use crate::shapes::{boundary_fault, path_fault};
use dpl_reference::{Role, array_fault, role_of, single_fault};
use dpl_spec_layout::{ElementFault, FlattenFault, Layer};
use dpl_syntax::{Element, Library};
use std::alloc::{AllocError, Global};

/// What an element is refused for.
fn fault_of(
    alloc: Global,
    chosen: Layer,
    element: &Element<'_>,
) -> Result<Option<ElementFault>, AllocError>
    requires { IsSized element.now }
    ensures { IfOk result (IsFaultBy (IsRefusedFor chosen (body_seen element.now.body))) }
{
    match role_of(chosen, &element.body) {
        Role::Nothing => Ok(None),
        Role::Boundary { xy } => Ok(boundary_fault(xy)),
        Role::Path { style, xy } => path_fault(alloc, style, xy),
        Role::Single { trans } => Ok(single_fault(trans)),
        Role::Array {
            trans,
            columns,
            rows,
            xy,
        } => Ok(array_fault(trans, columns, rows, xy)),
    }
}

/// Whether an element is refused.
pub(crate) fn is_refused(
    alloc: Global,
    chosen: Layer,
    element: &Element<'_>,
) -> Result<bool, AllocError>
    requires { IsSized element.now }
    ensures { IfOk result (λ found. IsTrue found ↔ IsRefused chosen 0 (element_seen element.now)) }
{
    Ok(fault_of(alloc, chosen, element)?.is_some())
}

/// What an element is refused for, if it stands at this offset and is refused.
fn refusal_of(
    alloc: Global,
    chosen: Layer,
    element: &Element<'_>,
    at: usize,
) -> Result<Option<FlattenFault>, AllocError>
    requires { IsSized element.now }
    ensures { IfOk result (λ o. IsRefusalWhere chosen (element_seen element.now) at o) }
{
    if element.at != at {
        return Ok(None);
    }
    let fault = fault_of(alloc, chosen, element)?;
    match fault {
        Some(fault) => Ok(Some(FlattenFault::Element { at, fault })),
        None => Ok(None),
    }
}

/// What an element of a structure at an offset is refused for, if it is.
fn refusal_in(
    alloc: Global,
    lib: &Library<'_>,
    chosen: Layer,
    structure: u32,
    at: usize,
) -> Result<Option<FlattenFault>, AllocError>
    requires { structure < length lib.now.structures }
    ensures { IfOk result (λ o. IsRefusalAmong chosen (elements_at lib.now structure) at o) }
{
    for element in lib.elements(structure) {
        let found = refusal_of(alloc, chosen, element, at)?;
        if let Some(fault) = found {
            return Ok(Some(fault));
        }
    }
    Ok(None)
}

/// What an element of a structure that may be marked is refused for, if it is.
fn refusal_where(
    alloc: Global,
    lib: &Library<'_>,
    chosen: Layer,
    structure: u32,
    marked: bool,
    at: usize,
) -> Result<Option<FlattenFault>, AllocError>
    requires { structure < length lib.now.structures }
    ensures taken { IfOk result (λ o. o ≡ None → marked ≡ true → (e : TreeElement) → Contains (elements_at lib.now structure) e → IsTakenAt chosen e at) }
    ensures refused { IfOk result (λ o. IfSome o (λ f. (marked ≡ true) × ((e : TreeElement) × Contains (elements_at lib.now structure) e × IsRefusal chosen e at f))) }
{
    if !marked {
        return Ok(None);
    }
    refusal_in(alloc, lib, chosen, structure, at)
}

/// What the refused element at this offset of a marked structure is refused for.
pub(crate) fn refusal(
    alloc: Global,
    lib: &Library<'_>,
    chosen: Layer,
    marks: &[bool],
    at: usize,
) -> Result<FlattenFault, AllocError>
    requires marks { length marks.now ≡ length lib.now.structures }
    requires there { HasRefusalAt lib.now chosen marks.now at }
    ensures { IfOk result (λ f. IsRefusalOf lib.now chosen marks.now at f) }
{
    for structure in 0..lib.count() {
        let marked = marks[structure as usize];
        let found = refusal_where(alloc, lib, chosen, structure, marked, at)?;
        if let Some(fault) = found {
            return Ok(fault);
        }
    }
    unreachable!()
}
