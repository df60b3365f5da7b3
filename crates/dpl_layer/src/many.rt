//! Many layers of one layout, which is read once.
ghost use Rattle.std.specs.Prelude.{◌≤◌, ℕ, IfOk, List, length};
ghost use Rattle.std.specs.List.{AllZip};
ghost use Rattle.dpl_layer.specs.Many.{AreFaultOf, IsReadIn, IsReadOf};
ghost use Rattle.dpl_layer.specs.Reading.{limit};

use crate::fault::LayerFault;
use crate::layer::{Layer, LayerChoice, layer_in};
use dpl_cert::Name;
use dpl_syntax::{Library, read_library};
use std::alloc::{AllocError, Global};

/// What is read of one of many layers of a layout.
#[derive(Drop)]
pub enum ReadLayer {
    /// The first fault of the layout, by its name in certificates, and where it stands, as `LayerFault` has them.
    Refused { name: Name, at: u64 },
    Read(Layer),
}

/// The squares of each of these layers of a file of at most 268,435,456 bytes, or its first fault, in the order of the layers: each as `layer_of` gives it. The bytes are read once. The layers are drawn and swept one after another, and then the bytes are let go.
///
/// The error: out of memory.
pub fn layers_of(
    alloc: Global,
    choices: &[LayerChoice],
    bytes: Vec<u8>,
) -> Result<Vec<ReadLayer>, AllocError>
    requires { length bytes.items ≤ limit }
    ensures { IfOk result (λ layers. AllZip (IsReadOf bytes.items) choices.now layers.items) }
{
    match read_library(alloc, bytes.as_slice()) {
        Ok(lib) => layers_in(alloc, choices, &lib),
        Err(fault) => refused_for(alloc, choices, LayerFault::from(fault)),
    }
}

/// Each of these layers has this fault.
fn refused_for(
    alloc: Global,
    choices: &[LayerChoice],
    fault: LayerFault,
) -> Result<Vec<ReadLayer>, AllocError>
    ensures { (bytes : List ℕ) → AreFaultOf bytes fault → IfOk result (λ layers. AllZip (IsReadOf bytes) choices.now layers.items) }
{
    let LayerFault::Refused { name, at } = fault else {
        return Err(AllocError);
    };
    let mut layers = Vec::new(alloc);
    for _choice in choices {
        layers.push(ReadLayer::Refused { name, at })?;
    }
    Ok(layers)
}

/// What is read of each of these layers of the library.
fn layers_in(
    alloc: Global,
    choices: &[LayerChoice],
    lib: &Library<'_>,
) -> Result<Vec<ReadLayer>, AllocError>
    ensures { IfOk result (λ layers. AllZip (IsReadIn lib.now) choices.now layers.items) }
{
    let mut layers = Vec::new(alloc);
    for choice in choices {
        layers.push(read_layer(alloc, choice, lib)?)?;
    }
    Ok(layers)
}

/// What is read of a layer of the library.
fn read_layer(
    alloc: Global,
    choice: &LayerChoice,
    lib: &Library<'_>,
) -> Result<ReadLayer, AllocError>
    ensures { IfOk result (IsReadIn lib.now choice.now) }
{
    match layer_in(alloc, choice, lib) {
        Ok(layer) => Ok(ReadLayer::Read(layer)),
        Err(LayerFault::Refused { name, at }) => Ok(ReadLayer::Refused { name, at }),
        Err(LayerFault::NoMemory) => Err(AllocError),
    }
}
