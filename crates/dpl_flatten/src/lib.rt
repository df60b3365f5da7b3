//! The shapes that a layout places on one layer, with every reference followed.
#![tactic(auto)]

ghost use Rattle.std.specs.Prelude.{◌^◌, ◌<◌, ◌≤◌, ◌↔◌, length, IfOk, IfErr, OnOk};
ghost use Rattle.std.specs.List.{All};
ghost use Rattle.dpl_spec_split.specs.declared.Pt.{Pt};
ghost use Rattle.dpl_spec_split.specs.Loops.{SomeLoopCovers, IsRectilinear, AreLoopsWithin, AreRectsWithin, farthest};
ghost use Rattle.dpl_spec_layout.specs.Placements.{IsInLayer};
ghost use Rattle.dpl_spec_layout.specs.Faults.{IsFaultless, IsFirstFault};
ghost use Rattle.dpl_flatten.specs.Drawing.{IsDrawingOf, IsTrimmed, ShapesCover};

use crate::drawing::draw_all;
use crate::faults::find_faults;
use crate::links::{ReachedGraph, graph_of};
use crate::loops::loops_of;
use dpl_base::Loop;
use dpl_links::reach;

mod cells;
mod count;
mod drawing;
mod faults;
mod first;
mod links;
mod loops;
mod missing;
mod placed;
mod recursion;
mod refused;
mod shapes;
mod top;

pub use crate::drawing::{Drawing, Shapes};
pub use crate::placed::count_points;
pub use crate::top::{roots, top_of};
pub use dpl_spec_layout::{ElementFault, FlattenFault, Layer, PathFault, TopFault};
use dpl_syntax::Library;
use std::alloc::Global;

/// What the structure `top` draws of a layer, itself and through all references below it.
///
/// # Errors
/// The first fault of the structures that the top reaches: the missing structure of least offset, then the recursion of
/// least offset, then the refused element of least offset, then more than 16,777,216 placed points; `NoMemory`.
pub fn draw(
    alloc: Global,
    lib: &Library<'_>,
    top: u32,
    layer: Layer,
) -> Result<Drawing, FlattenFault>
    requires { top < length lib.now.structures }
    ensures drawing { IfOk result (IsDrawingOf lib.now top layer) }
    // What places no point isn't walked.
    ensures trimmed { IfOk result (IsTrimmed lib.now layer) }
    ensures fault { IfErr result (IsFirstFault lib.now top layer) }
{
    let graph = graph_of(alloc, lib)?;
    let marks = reach(alloc, graph.as_slice(), top)?;
    let links = ReachedGraph {
        graph: graph.as_slice(),
        marks: marks.as_slice(),
    };
    let survey = find_faults(alloc, lib, top, layer, &links)?;
    Ok(draw_all(alloc, lib, top, layer, &links, survey)?)
}

/// The shapes that the structure `top` places on a layer, itself and through all references below it: those of its
/// boundaries and boxes of that layer and datatype, and one for each rectangle of its paths. Together they cover the
/// layer's squares.
///
/// # Errors
/// The first fault of the structures that the top reaches: the missing structure of least offset, then the recursion of
/// least offset, then the refused element of least offset, then more than 16,777,216 placed points, then the element of
/// least offset with a placed point out of range; `NoMemory`.
pub fn shapes_of(
    alloc: Global,
    lib: &Library<'_>,
    top: u32,
    layer: Layer,
) -> Result<Shapes, FlattenFault>
    requires { top < length lib.now.structures }
    ensures covers { IfOk result (λ shapes. (s : Pt) → ShapesCover shapes s ↔ IsInLayer lib.now top layer s) }
    ensures straight { IfOk result (λ shapes. All IsRectilinear shapes.loops.items) }
    ensures rects { IfOk result (λ shapes. AreRectsWithin farthest shapes.rects.items) }
    ensures loops { IfOk result (λ shapes. AreLoopsWithin farthest shapes.loops.items) }
    ensures faultless { OnOk result (IsFaultless lib.now top layer) }
    ensures fault { IfErr result (λ f. IsFirstFault lib.now top layer f) }
{
    let drawing = draw(alloc, lib, top, layer)?;
    drawing.shapes(alloc)
}

/// The loops that the structure `top` places on a layer: its shapes, each rectangle by the loop through its corners,
/// behind the others. Together they cover the layer's squares. Coordinates are database units.
///
/// # Errors
/// Those of `shapes_of`.
pub fn flatten(
    alloc: Global,
    lib: &Library<'_>,
    top: u32,
    layer: Layer,
) -> Result<Vec<Loop>, FlattenFault>
    requires { top < length lib.now.structures }
    ensures covers { IfOk result (λ loops. (s : Pt) → SomeLoopCovers loops.items s ↔ IsInLayer lib.now top layer s) }
    ensures straight { IfOk result (λ loops. All IsRectilinear loops.items) }
    ensures within { IfOk result (λ loops. AreLoopsWithin farthest loops.items) }
    ensures faultless { OnOk result (IsFaultless lib.now top layer) }
    ensures fault { IfErr result (λ f. IsFirstFault lib.now top layer f) }
{
    let shapes = shapes_of(alloc, lib, top, layer)?;
    Ok(loops_of(alloc, shapes)?)
}
