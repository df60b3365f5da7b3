//! The layer of a layout.
ghost use Rattle.std.specs.Prelude.{◌≡◌, ◌<◌, ◌≤◌, ℕ, IfErr, IfOk, List, Some, length};
ghost use Rattle.dpl_spec_format.specs.Tree.{Library as LibraryOf};
ghost use Rattle.dpl_spec_format.specs.Layout.{Holds};
ghost use Rattle.dpl_spec_layout.specs.declared.Layer.{Layer as ChosenLayerOf};
ghost use Rattle.dpl_flatten.specs.Drawing.{IsDrawingOf};
ghost use Rattle.dpl_layer.specs.Marked.{AreSquaresBelow};
ghost use Rattle.dpl_layer.specs.Reading.{Choice, HasDrawing, HasDrawingIn, IsLayout, copied_of, limit};
ghost use Rattle.dpl_layer.specs.View.{IsFaultOfLayer, IsLayerFault, IsLayerFaultIn, choice_view, layer_view};

use crate::fault::LayerFault;
use dpl_flatten::{Drawing, Layer as ChosenLayer, draw, top_of};
use dpl_slabs::Slabs;
use dpl_syntax::{Library, read_library};
use std::alloc::{AllocError, Global};
use std::thread::Threads;

/// What is taken of a layout.
#[derive(Clone, Copy, Debug)]
pub struct LayerChoice<'a> {
    /// The name of the top structure. Where none is named, the top is the structure that no reference names.
    pub top: Option<&'a str>,
    /// The layer's number in the file.
    pub layer: u16,
    /// The datatype of the boundaries and paths, and the box type of the boxes, that are taken of the layer.
    pub datatype: u16,
}

/// What is read of a layout.
#[derive(Drop)]
pub struct Layer {
    /// The copied records: those of the file before the elements of the top structure.
    pub copied: Vec<u8>,
    /// The unit squares of the layer, a database unit wide, as canonical slabs.
    pub slabs: Slabs,
}

/// The copied records, and a drawing of the layer.
#[derive(Drop)]
struct DrawnLayer {
    copied: Vec<u8>,
    drawing: Drawing,
}

/// The squares of the chosen layer of a file of at most 268,435,456 bytes. The bytes are let go before the layer is laid out and swept.
///
/// The error is the first fault of the layout, or out of memory.
pub fn layer_of(alloc: Global, choice: &LayerChoice, bytes: Vec<u8>) -> Result<Layer, LayerFault>
    requires { length bytes.items ≤ limit }
    ensures layer { IfOk result (λ l. IsLayout (choice_view choice.now) bytes.items (layer_view l)) }
    ensures fault { IfErr result (IsLayerFault (choice_view choice.now) bytes.items) }
{
    let drawn = drawn_layer_of(alloc, choice, bytes.as_slice())?;
    drop(bytes);
    swept(alloc, drawn)
}

/// The same, by so many workers, who sweep its loops, and its rectangles where there are many.
pub fn layer_by<R: Threads + Sync>(
    rt: &R,
    alloc: Global,
    choice: &LayerChoice,
    bytes: Vec<u8>,
    workers: u32,
) -> Result<Layer, LayerFault>
    requires { length bytes.items ≤ limit }
    ensures layer { IfOk result (λ l. IsLayout (choice_view choice.now) bytes.items (layer_view l)) }
    ensures fault { IfErr result (IsLayerFault (choice_view choice.now) bytes.items) }
{
    let drawn = drawn_layer_of(alloc, choice, bytes.as_slice())?;
    drop(bytes);
    swept_by(rt, alloc, drawn, workers)
}

/// The squares of the chosen layer of at most 268,435,456 bytes that are read again afterwards.
///
/// The error is the first fault of the layout, or out of memory.
pub fn layer_within(alloc: Global, choice: &LayerChoice, bytes: &[u8]) -> Result<Layer, LayerFault>
    requires { length bytes.now ≤ limit }
    ensures layer { IfOk result (λ l. IsLayout (choice_view choice.now) bytes.now (layer_view l)) }
    ensures fault { IfErr result (IsLayerFault (choice_view choice.now) bytes.now) }
{
    let drawn = drawn_layer_of(alloc, choice, bytes)?;
    swept(alloc, drawn)
}

/// What is drawn of the chosen layer, or the first fault of the layout.
fn drawn_layer_of(
    alloc: Global,
    choice: &LayerChoice,
    bytes: &[u8],
) -> Result<DrawnLayer, LayerFault>
    requires { length bytes.now ≤ limit }
    ensures drawn { IfOk result (λ d. HasDrawing (choice_view choice.now) bytes.now d.copied.items d.drawing) }
    ensures fault { IfErr result (IsLayerFault (choice_view choice.now) bytes.now) }
{
    let lib = read_library(alloc, bytes)?;
    drawn_layer_in(alloc, choice, &lib)
}

/// What is drawn of the layer of a library, or its first fault.
fn drawn_layer_in(
    alloc: Global,
    choice: &LayerChoice,
    lib: &Library<'_>,
) -> Result<DrawnLayer, LayerFault>
    ensures drawn { IfOk result (λ d. HasDrawingIn (choice_view choice.now) lib.now d.copied.items d.drawing) }
    ensures fault { IfErr result (IsLayerFaultIn (choice_view choice.now) lib.now) }
{
    let top = top_of(alloc, lib, choice.top)?;
    let copied = copied_records(alloc, lib, top)?;
    let chosen = ChosenLayer {
        layer: choice.layer,
        datatype: choice.datatype,
    };
    let drawing = draw(alloc, lib, top, chosen)?;
    Ok(DrawnLayer { copied, drawing })
}

/// The squares of the layer of a library, or its first fault.
pub(crate) fn layer_in(
    alloc: Global,
    choice: &LayerChoice,
    lib: &Library<'_>,
) -> Result<Layer, LayerFault>
    ensures layer { (bytes : List ℕ) → Holds bytes lib.now → IfOk result (λ l. IsLayout (choice_view choice.now) bytes (layer_view l)) }
    ensures fault { (bytes : List ℕ) → Holds bytes lib.now → IfErr result (IsLayerFault (choice_view choice.now) bytes) }
{
    let drawn = drawn_layer_in(alloc, choice, lib)?;
    swept(alloc, drawn)
}

/// The squares of what is drawn of a layer.
fn swept(alloc: Global, drawn: DrawnLayer) -> Result<Layer, LayerFault>
    ensures layer { (v : Choice) (bytes : List ℕ) → HasDrawing v bytes drawn.copied.items drawn.drawing → IfOk result (λ l. IsLayout v bytes (layer_view l)) }
    ensures fault { (v : Choice) (bytes : List ℕ) → HasDrawing v bytes drawn.copied.items drawn.drawing → IfErr result (IsLayerFault v bytes) }
{
    let DrawnLayer { copied, drawing } = drawn;
    let slabs = squares_of(alloc, drawing)?;
    Ok(Layer { copied, slabs })
}

/// The same by so many workers.
fn swept_by<R: Threads + Sync>(
    rt: &R,
    alloc: Global,
    drawn: DrawnLayer,
    workers: u32,
) -> Result<Layer, LayerFault>
    ensures layer { (v : Choice) (bytes : List ℕ) → HasDrawing v bytes drawn.copied.items drawn.drawing → IfOk result (λ l. IsLayout v bytes (layer_view l)) }
    ensures fault { (v : Choice) (bytes : List ℕ) → HasDrawing v bytes drawn.copied.items drawn.drawing → IfErr result (IsLayerFault v bytes) }
{
    let DrawnLayer { copied, drawing } = drawn;
    let slabs = squares_by(rt, alloc, drawing, workers)?;
    Ok(Layer { copied, slabs })
}

/// The squares that a drawing covers. It is let go once its shapes are there, and their loops before all is swept.
pub(crate) fn squares_of(alloc: Global, drawing: Drawing) -> Result<Slabs, LayerFault>
    ensures squares { (lib : LibraryOf) (top : ℕ) (layer : ChosenLayerOf) → IsDrawingOf lib top layer drawing → IfOk result (AreSquaresBelow lib top layer) }
    ensures fault { (lib : LibraryOf) (top : ℕ) (layer : ChosenLayerOf) → IsDrawingOf lib top layer drawing → IfErr result (IsFaultOfLayer lib top layer) }
{
    let shapes = drawing.shapes(alloc)?;
    Ok(Slabs::of_shapes(alloc, shapes.rects, shapes.loops)?)
}

/// The same by so many workers.
pub(crate) fn squares_by<R: Threads + Sync>(
    rt: &R,
    alloc: Global,
    drawing: Drawing,
    workers: u32,
) -> Result<Slabs, LayerFault>
    ensures squares { (lib : LibraryOf) (top : ℕ) (layer : ChosenLayerOf) → IsDrawingOf lib top layer drawing → IfOk result (AreSquaresBelow lib top layer) }
    ensures fault { (lib : LibraryOf) (top : ℕ) (layer : ChosenLayerOf) → IsDrawingOf lib top layer drawing → IfErr result (IsFaultOfLayer lib top layer) }
{
    let shapes = drawing.shapes(alloc)?;
    Ok(Slabs::of_shapes_by(rt, alloc, shapes.rects, shapes.loops, workers)?)
}

/// The records that are copied to the file of the masks: those before the elements of a structure, one behind the other.
pub fn copied_records(alloc: Global, lib: &Library<'_>, top: u32) -> Result<Vec<u8>, AllocError>
    requires { top < length lib.now.structures }
    ensures { IfOk result (λ v. copied_of lib.now top ≡ Some v.items) }
{
    let frame = lib.frame(top);
    let mut copied = Vec::from_slice(alloc, frame.header)?;
    copied.extend_from_slice(frame.bgnlib)?;
    copied.extend_from_slice(frame.libname)?;
    copied.extend_from_slice(frame.units)?;
    copied.extend_from_slice(frame.bgnstr)?;
    copied.extend_from_slice(frame.strname)?;
    Ok(copied)
}
