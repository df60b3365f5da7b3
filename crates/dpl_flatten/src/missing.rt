//! References that name a structure that isn't there.

ghost use Rattle.std.specs.Prelude.{◌↔◌, IsTrue};
ghost use Rattle.dpl_syntax.specs.Elements.{element_seen};
ghost use Rattle.dpl_spec_layout.specs.Faults.{IsMissing};
ghost use Rattle.dpl_flatten.specs.Least.{IsReference};

use crate::links::target;
use dpl_syntax::{Body, Element, Library};

/// Whether an element is a reference.
fn is_reference(element: &Element<'_>) -> bool
    ensures { IsTrue result ↔ IsReference (element_seen element.now) }
{
    match element.body {
        Body::Sref { .. } => true,
        Body::Aref { .. } => true,
        _ => false,
    }
}

/// Whether an element is a reference to a structure that isn't there.
pub(crate) fn is_missing(lib: &Library<'_>, element: &Element<'_>) -> bool
    ensures { IsTrue result ↔ IsMissing lib.now 0 (element_seen element.now) }
{
    is_reference(element) && target(lib, element).is_none()
}
