//! What a file holds: structures, tops, layers, and what the top places of each.
ghost use Rattle.std.specs.Prelude.{◌≡◌, ◌≤◌, IfErr, IfOk, length, map};
ghost use Rattle.std.specs.Option.{option_copied};
ghost use Rattle.dpl_spec_format.specs.Layout.{Holds};
ghost use Rattle.dpl_spec_layout.specs.Structures.{AreRoots};
ghost use Rattle.dpl_view.specs.declared.contents.Top.{Top as TopSeen};
ghost use Rattle.dpl_view.specs.declared.counts.LayerCounts.{LayerCounts as LayerCountsSeen};
ghost use Rattle.dpl_layer.specs.Reading.{limit};
ghost use Rattle.dpl_view.specs.Contents.{AreContents, ArePlaced, IsFaultOfPlacing, IsLook, IsSyntaxFault, PlacesAll};

use crate::counts::LayerCounts;
use crate::layers::layers_of;
use crate::units::{name_in, units_in};
use dpl_cert::Name;
use dpl_flatten::{Layer, count_points, roots, top_of};
use dpl_layer::LayerFault;
use dpl_syntax::{Library, read_library};
use std::alloc::{AllocError, Global};

/// A structure that no reference names.
#[derive(Debug, Drop)]
pub struct Top {
    /// Its number in the order of the file, from 0.
    pub number: u32,
    pub name: String,
}

/// What the top places.
#[derive(Debug, Drop)]
pub enum Placed {
    /// How many points of each layer, in their order, itself and through all references below it; 4,294,967,295 stands for so many or more.
    Points(Vec<u32>),
    /// Why that isn't told, as `dpl` names the fault and where it stands: there is no top, there are several and none is named, or the top reaches a reference to a structure that isn't there, or a recursion.
    Unplaced { name: Name, at: u64 },
}

/// What a file holds.
#[derive(Debug, Drop)]
pub struct Contents {
    /// The two reals of UNITS: a database unit in user units, and in metres.
    pub units: (f64, f64),
    /// How many structures there are.
    pub structures: u32,
    /// The structures that no reference names, in the order of the file.
    pub tops: Vec<Top>,
    /// The layers on which elements of the file lie, in order, each once, with how many elements of each kind do, whatever structure they stand in.
    pub layers: Vec<LayerCounts>,
    pub placed: Placed,
}

/// What is seen of a file.
#[derive(Debug, Drop)]
pub enum Look {
    /// The first fault of its bytes, by its name in certificates, and where it stands.
    Refused { name: Name, at: u64 },
    Held(Contents),
}

/// What the bytes of a file hold, at most 268,435,456 of them. Points are counted of the structure named `top`, or without a name of the only one that no reference names.
///
/// The error: out of memory.
pub fn look_into(alloc: Global, top: Option<&str>, bytes: &[u8]) -> Result<Look, AllocError>
    requires { length bytes.now ≤ limit }
    ensures { IfOk result (IsLook (option_copied top.entry) bytes.now) }
{
    match library_of(alloc, bytes) {
        Ok(lib) => {
            let contents = contents_of(alloc, top, bytes, &lib)?;
            Ok(Look::Held(contents))
        }
        Err(LayerFault::Refused { name, at }) => Ok(Look::Refused { name, at }),
        Err(LayerFault::NoMemory) => Err(AllocError),
    }
}

/// The library that the bytes hold.
fn library_of(alloc: Global, bytes: &[u8]) -> Result<Library<'_>, LayerFault>
    requires { length bytes.now ≤ limit }
    ensures library { IfOk result (λ lib. Holds bytes.now lib) }
    ensures fault { IfErr result (IsSyntaxFault bytes.now) }
{
    let lib = read_library(alloc, bytes)?;
    Ok(lib)
}

/// What a library holds.
fn contents_of(
    alloc: Global,
    top: Option<&str>,
    bytes: &[u8],
    lib: &Library<'_>,
) -> Result<Contents, AllocError>
    ensures { IfOk result (AreContents lib.now (option_copied top.entry)) }
{
    let tops = tops_of(alloc, lib)?;
    let layers = layers_of(alloc, lib)?;
    let placed = placed_of(alloc, top, lib, &layers)?;
    Ok(Contents {
        units: units_in(bytes),
        structures: lib.count(),
        tops,
        layers,
        placed,
    })
}

/// The structures that no reference names.
fn tops_of(alloc: Global, lib: &Library<'_>) -> Result<Vec<Top>, AllocError>
    ensures { IfOk result (λ v. AreRoots lib.now (map (λ (t : TopSeen). t.number) v.items)) }
{
    let numbers = roots(alloc, lib)?;
    let mut tops = Vec::new(alloc);
    for number in &numbers {
        let name = name_in(alloc, lib.frame(*number).strname)?;
        tops.push(Top {
            number: *number,
            name,
        })?;
    }
    Ok(tops)
}

/// What the top places of each of these layers.
fn placed_of(
    alloc: Global,
    top: Option<&str>,
    lib: &Library<'_>,
    layers: &[LayerCounts],
) -> Result<Placed, AllocError>
    ensures { IfOk result (ArePlaced lib.now (option_copied top.entry) layers.now) }
{
    let chosen = layers_in(alloc, layers)?;
    match points_of(alloc, top, lib, &chosen) {
        Ok(points) => Ok(Placed::Points(points)),
        Err(LayerFault::Refused { name, at }) => Ok(Placed::Unplaced { name, at }),
        Err(LayerFault::NoMemory) => Err(AllocError),
    }
}

/// The layers of these counts.
fn layers_in(alloc: Global, layers: &[LayerCounts]) -> Result<Vec<Layer>, AllocError>
    ensures { IfOk result (λ v. v.items ≡ map (λ (x : LayerCountsSeen). x.layer) layers.now) }
{
    let mut found = Vec::new(alloc);
    for entry in layers {
        found.push(entry.layer)?;
    }
    Ok(found)
}

/// How many points of each of these layers the top places.
fn points_of(
    alloc: Global,
    top: Option<&str>,
    lib: &Library<'_>,
    layers: &[Layer],
) -> Result<Vec<u32>, LayerFault>
    ensures points { IfOk result (λ v. PlacesAll lib.now (option_copied top.entry) layers.now v.items) }
    ensures fault { IfErr result (IsFaultOfPlacing lib.now (option_copied top.entry)) }
{
    let number = top_of(alloc, lib, top)?;
    let points = count_points(alloc, lib, number, layers)?;
    Ok(points)
}
