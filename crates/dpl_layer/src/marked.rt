//! The layer of a layout, and the squares of it that markers fix to a mask.
ghost use Rattle.std.specs.Prelude.{◌<◌, ◌≤◌, ℕ, IfErr, IfOk, List, OnOk, Option, length};
ghost use Rattle.dpl_spec_format.specs.Tree.{Library as LibraryOf};
ghost use Rattle.dpl_flatten.specs.Drawing.{Drawn as DrawingOf};
ghost use Rattle.dpl_layer.specs.Drawn.{AreMarkersOf, HasMarkedDrawing, HasMarkedDrawingIn, HasSquares};
ghost use Rattle.dpl_layer.specs.Marked.{AreFaultless, AreMarked, IsMarkedLayout, MarkedChoice as MarkedChoiceOf};
ghost use Rattle.dpl_layer.specs.Reading.{limit};
ghost use Rattle.dpl_layer.specs.View.{IsMarkedFault, IsMarkedLibraryFault, IsMarkersFault, marked_choice_view, marked_view};

use crate::fault::LayerFault;
use crate::layer::{LayerChoice, copied_records, squares_by, squares_of};
use dpl_flatten::{Drawing, FlattenFault, Layer as ChosenLayer, draw, top_of};
use dpl_slabs::Slabs;
use dpl_syntax::{Library, read_library};
use std::alloc::Global;
use std::thread::Threads;

/// What is taken of a layout, and the layers of its markers, of datatype 0.
#[derive(Clone, Copy, Debug)]
pub struct MarkedChoice<'a> {
    /// The layer that is marked.
    pub layer: LayerChoice<'a>,
    /// The layer of the markers that fix squares to mask A.
    pub mark_a: Option<u16>,
    /// The layer of the markers that fix squares to mask B.
    pub mark_b: Option<u16>,
}

/// What is read of a layout with markers.
#[derive(Drop)]
pub struct MarkedLayer {
    /// The copied records: those of the file before the elements of the top structure.
    pub copied: Vec<u8>,
    /// The unit squares of the layer, a database unit wide, as canonical slabs.
    pub slabs: Slabs,
    /// Those of them that are fixed to mask A.
    pub mark_a: Slabs,
    /// Those of them that are fixed to mask B.
    pub mark_b: Slabs,
}

/// What is drawn of a layer of markers.
#[derive(Drop)]
enum Markers {
    /// No markers are asked for.
    Unasked,
    Drawn(Drawing),
    /// Their first fault, which is told only where the layers before them have none.
    Faulty(FlattenFault),
}

/// The copied records, a drawing of the layer, and what is drawn of its markers.
#[derive(Drop)]
struct DrawnMarkedLayer {
    copied: Vec<u8>,
    drawing: Drawing,
    mark_a: Markers,
    mark_b: Markers,
}

/// The squares of the chosen layer of a file of at most 268,435,456 bytes, and those of them that its markers fix to a mask. The bytes are let go before the layer is laid out and swept.
///
/// The error is the first fault of the layout, or out of memory: what is asked of the layer alone is tried for the layer first, then for the markers of mask A, and then for those of mask B.
pub fn marked_layer_of(
    alloc: Global,
    choice: &MarkedChoice,
    bytes: Vec<u8>,
) -> Result<MarkedLayer, LayerFault>
    requires { length bytes.items ≤ limit }
    ensures layer { IfOk result (λ l. IsMarkedLayout (marked_choice_view choice.now) bytes.items (marked_view l)) }
    ensures fault { IfErr result (IsMarkedFault (marked_choice_view choice.now) bytes.items) }
{
    let DrawnMarkedLayer {
        copied,
        drawing,
        mark_a,
        mark_b,
    } = drawn_marked_layer_of(alloc, choice, bytes.as_slice())?;
    drop(bytes);
    let slabs = squares_of(alloc, drawing)?;
    marked_squares(alloc, copied, slabs, mark_a, mark_b)
}

/// The same, by so many workers, who sweep the layer's loops, and its rectangles where there are many.
pub fn marked_layer_by<R: Threads + Sync>(
    rt: &R,
    alloc: Global,
    choice: &MarkedChoice,
    bytes: Vec<u8>,
    workers: u32,
) -> Result<MarkedLayer, LayerFault>
    requires { length bytes.items ≤ limit }
    ensures layer { IfOk result (λ l. IsMarkedLayout (marked_choice_view choice.now) bytes.items (marked_view l)) }
    ensures fault { IfErr result (IsMarkedFault (marked_choice_view choice.now) bytes.items) }
{
    let DrawnMarkedLayer {
        copied,
        drawing,
        mark_a,
        mark_b,
    } = drawn_marked_layer_of(alloc, choice, bytes.as_slice())?;
    drop(bytes);
    let slabs = squares_by(rt, alloc, drawing, workers)?;
    marked_squares(alloc, copied, slabs, mark_a, mark_b)
}

/// What is drawn of the chosen layer and of its markers, or the first fault of the layout.
fn drawn_marked_layer_of(
    alloc: Global,
    choice: &MarkedChoice,
    bytes: &[u8],
) -> Result<DrawnMarkedLayer, LayerFault>
    requires { length bytes.now ≤ limit }
    ensures drawn { IfOk result (λ d. HasMarkedDrawing (marked_choice_view choice.now) bytes.now d.copied.items d.drawing d.mark_a d.mark_b) }
    ensures fault { IfErr result (IsMarkedFault (marked_choice_view choice.now) bytes.now) }
{
    let lib = read_library(alloc, bytes)?;
    drawn_marked_layer_in(alloc, choice, &lib)
}

/// What is drawn of the layer of a library and of its markers, or the first fault of the layer.
fn drawn_marked_layer_in(
    alloc: Global,
    choice: &MarkedChoice,
    lib: &Library<'_>,
) -> Result<DrawnMarkedLayer, LayerFault>
    ensures drawn { IfOk result (λ d. HasMarkedDrawingIn (marked_choice_view choice.now) lib.now d.copied.items d.drawing d.mark_a d.mark_b) }
    ensures fault { IfErr result (IsMarkedLibraryFault (marked_choice_view choice.now) lib.now) }
{
    let top = top_of(alloc, lib, choice.layer.top)?;
    let copied = copied_records(alloc, lib, top)?;
    let chosen = ChosenLayer {
        layer: choice.layer.layer,
        datatype: choice.layer.datatype,
    };
    let drawing = draw(alloc, lib, top, chosen)?;
    Ok(DrawnMarkedLayer {
        copied,
        drawing,
        mark_a: markers_of(alloc, lib, top, choice.mark_a),
        mark_b: markers_of(alloc, lib, top, choice.mark_b),
    })
}

/// What is drawn of the markers of this layer.
fn markers_of(alloc: Global, lib: &Library<'_>, top: u32, layer: Option<u16>) -> Markers
    requires { top < length lib.now.structures }
    ensures { AreMarkersOf lib.now top layer result }
{
    let Some(layer) = layer else {
        return Markers::Unasked;
    };
    match draw(alloc, lib, top, ChosenLayer { layer, datatype: 0 }) {
        Ok(drawing) => Markers::Drawn(drawing),
        Err(fault) => Markers::Faulty(fault),
    }
}

/// The squares of a layer, and the marked ones among them.
fn marked_squares(
    alloc: Global,
    copied: Vec<u8>,
    slabs: Slabs,
    mark_a: Markers,
    mark_b: Markers,
) -> Result<MarkedLayer, LayerFault>
    ensures layer { (v : MarkedChoiceOf) (bytes : List ℕ) (d : DrawingOf) → HasMarkedDrawing v bytes copied.items d mark_a mark_b → HasSquares d slabs
        → IfOk result (λ l. IsMarkedLayout v bytes (marked_view l)) }
    ensures fault { (v : MarkedChoiceOf) (bytes : List ℕ) (d : DrawingOf) → HasMarkedDrawing v bytes copied.items d mark_a mark_b → HasSquares d slabs
        → IfErr result (IsMarkedFault v bytes) }
{
    let mark_a = marked(alloc, mark_a, &slabs)?;
    let mark_b = marked(alloc, mark_b, &slabs)?;
    Ok(MarkedLayer {
        copied,
        slabs,
        mark_a,
        mark_b,
    })
}

/// The squares of a layer on which markers lie, or the first fault of the markers.
fn marked(alloc: Global, markers: Markers, layer: &Slabs) -> Result<Slabs, LayerFault>
    ensures faultless { (lib : LibraryOf) (top : ℕ) (n : Option ℕ) → AreMarkersOf lib top n markers → OnOk result (AreFaultless lib top n) }
    ensures set { (lib : LibraryOf) (top : ℕ) (n : Option ℕ) → AreMarkersOf lib top n markers → IfOk result (AreMarked lib top n layer.now) }
    ensures fault { (lib : LibraryOf) (top : ℕ) (n : Option ℕ) → AreMarkersOf lib top n markers → IfErr result (IsMarkersFault lib top n) }
{
    match markers {
        Markers::Unasked => Ok(Slabs::empty(alloc)),
        Markers::Drawn(drawing) => {
            let squares = squares_of(alloc, drawing)?;
            Ok(squares.meet(alloc, layer)?)
        }
        Markers::Faulty(fault) => Err(LayerFault::from(fault)),
    }
}
