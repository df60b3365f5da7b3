//! What structures draw of a layer, apart from the library that it is read of.

ghost use Rattle.std.specs.Prelude.{◌≡◌, ◌^◌, ◌<◌, ◌≤◌, ℕ, length, IfOk, MatchResult};
ghost use Rattle.dpl_spec_split.specs.Loops.{AreLoopsWithin, AreRectsWithin, farthest};
ghost use Rattle.dpl_spec_format.specs.Tree.{Library};
ghost use Rattle.dpl_spec_layout.specs.Faults.{IsFirstFault, IsSmall};
ghost use Rattle.dpl_spec_layout.specs.declared.Layer.{Layer};
ghost use Rattle.dpl_links.specs.Graph.{AreReached};
ghost use Rattle.dpl_flatten.specs.Drawing.{AreShapesOf, IsDrawingOf, IsTrimmed, IsWalkable, drawn};
ghost use Rattle.dpl_flatten.specs.Links.{IsLinked, IsOrdered};
ghost use Rattle.dpl_flatten.specs.Totals.{AreTotals};

use crate::cells::make_cells;
use crate::faults::Survey;
use crate::links::ReachedGraph;
use dpl_base::{Loop, Rect};
use dpl_spec_layout::{FlattenFault, Layer};
use dpl_syntax::Library;
use dpl_walk::{Cell, gather};
use std::alloc::{AllocError, Global};
use std::marker::Model;

/// What the structures that a top reaches draw of a layer, and the copies that they place. It borrows nothing of the
/// library, so that this can be let go before the loops take memory.
#[derive(Drop)]
pub struct Drawing {
    cells: Vec<Cell>,
    /// Structures, each behind those that it places; among them is each that does no more than place one copy.
    order: Vec<u32>,
    top: u32,
}

impl Model for Drawing {
    ghost use Rattle.dpl_flatten.specs.Drawing.{Drawn};

    ghost Value = { Drawn };

    ghost use Rattle.dpl_flatten.specs.Drawing.{IsWalkable, drawn};

    ghost view = { λ d. drawn d.cells.items d.order.items d.top };

    ghost invariant = { λ d. IsWalkable (drawn d.cells.items d.order.items d.top) };
}

/// What covers a layer. Coordinates are database units.
#[derive(Drop)]
pub struct Shapes {
    /// Those of loops through the corners of a rectangle. They may have no squares.
    pub rects: Vec<Rect>,
    /// The other loops.
    pub loops: Vec<Loop>,
}

impl Drawing {
    /// The shapes of the layer: one for each boundary and box, and for each rectangle of a path, wherever it is placed.
    ///
    /// # Errors
    /// `OutOfRange` with the element of least offset that has a placed point out of range; `NoMemory`.
    pub fn shapes(self, alloc: Global) -> Result<Shapes, FlattenFault>
        ensures rects { IfOk result (λ shapes. AreRectsWithin farthest shapes.rects.items) }
        ensures loops { IfOk result (λ shapes. AreLoopsWithin farthest shapes.loops.items) }
        ensures layer { (lib : Library) (top : ℕ) (layer : Layer) → IsDrawingOf lib top layer self → MatchResult result (AreShapesOf lib top layer) (IsFirstFault lib top layer) }
    {
        let found = gather(alloc, self.cells, self.order.as_slice(), self.top)?;
        match found.far {
            Some(at) => Err(FlattenFault::OutOfRange { at }),
            None => Ok(Shapes {
                rects: found.rects,
                loops: found.loops,
            }),
        }
    }
}

/// What the structures below the top draw and place.
pub(crate) fn draw_all(
    alloc: Global,
    lib: &Library<'_>,
    top: u32,
    layer: Layer,
    links: &ReachedGraph<'_>,
    survey: Survey,
) -> Result<Drawing, AllocError>
    requires links { IsLinked lib.now links.now.graph.now links.now.marks.now }
    requires reached { AreReached links.now.graph.now top links.now.marks.now }
    requires top { top < length lib.now.structures }
    requires small { IsSmall lib.now top layer }
    requires order { IsOrdered lib.now links.now.graph.now links.now.marks.now survey.order.levels.items survey.order.vertices.items }
    requires totals { AreTotals lib.now layer links.now.marks.now survey.totals.items }
    requires few { length lib.now.structures ≤ 2 ^ 26 }
    ensures drawing { IfOk result (IsDrawingOf lib.now top layer) }
    ensures trimmed { IfOk result (IsTrimmed lib.now layer) }
{
    let cells = make_cells(alloc, lib, layer, survey.totals.as_slice(), links.marks)?;
    Ok(Drawing {
        cells,
        order: survey.order.vertices,
        top,
    })
}
