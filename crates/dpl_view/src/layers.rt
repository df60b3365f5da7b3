//! The layers on which elements of a library lie.
ghost use Rattle.std.specs.Prelude.{◌≡◌, ◌++◌, ℕ, IfOk, IfSome, OnOk, length, map};
ghost use Rattle.std.specs.List.{Contains};
ghost use Rattle.std.specs.List.Sorted.{IsStrictlyIncreasing};
ghost use Rattle.dpl_syntax.specs.Elements.{body_seen, element_seen};
ghost use Rattle.dpl_view.specs.Layers.{AreLayerCounts, layer_in};
ghost use Rattle.dpl_view.specs.Ranks.{AreNoted, AreRanks, IsNarrow, rank_of, ranks_in};

use crate::counts::{LayerCounts, unsigned};
use crate::tally::{empty_table, tally_file};
use dpl_flatten::Layer;
use dpl_syntax::{Body, Element, Library};
use std::alloc::{AllocError, Global};

/// The layer of these two numbers.
fn layer_numbered(layer: u16, datatype: u16) -> Layer
    ensures value { result ≡ record { layer = layer; datatype = datatype } }
    ensures narrow { IsNarrow result }
{
    Layer { layer, datatype }
}

/// The layer and datatype on which an element lies, if it is no reference.
pub(crate) fn layer_of(body: &Body<'_>) -> Option<Layer>
    ensures value { result ≡ layer_in (body_seen body.now) }
    ensures narrow { IfSome result IsNarrow }
{
    match *body {
        Body::Boundary {
            layer,
            datatype,
            ..
        } => Some(layer_numbered(layer, datatype)),
        Body::Path {
            layer,
            datatype,
            ..
        } => Some(layer_numbered(layer, datatype)),
        Body::BoxShape { layer, boxtype, .. } => Some(layer_numbered(layer, boxtype)),
        Body::Text {
            layer,
            texttype,
            ..
        } => Some(layer_numbered(layer, unsigned(texttype))),
        Body::Node {
            layer,
            nodetype,
            ..
        } => Some(layer_numbered(layer, unsigned(nodetype))),
        Body::Sref { .. } | Body::Aref { .. } => None,
    }
}

/// The place of a layer among all: first by layer, then by datatype.
pub(crate) fn rank(layer: Layer) -> u32
    ensures { result ≡ rank_of layer }
{
    u32::from(layer.layer) * 65_536 + u32::from(layer.datatype)
}

/// The layer at a place.
pub(crate) fn layer_at(rank: u32) -> Layer
    ensures place { rank ≡ rank_of result }
    ensures narrow { IsNarrow result }
{
    Layer {
        layer: (rank / 65_536) as u16,
        datatype: (rank % 65_536) as u16,
    }
}

/// Adds the place of the layer of an element, if it lies on one.
fn note_rank(body: &Body<'_>, ranks: &mut Vec<u32>) -> Result<(), AllocError>
    ensures ranks { OnOk result (ranks.new.items ≡ ranks.old.items ++ ranks_in (body_seen body.now)) }
    ensures narrow { IfSome (layer_in (body_seen body.now)) IsNarrow }
{
    if let Some(layer) = layer_of(body) {
        ranks.push(rank(layer))?;
    }
    Ok(())
}

/// Adds the place of the layer of each of these elements.
fn note_ranks(elements: &[Element<'_>], ranks: &mut Vec<u32>) -> Result<(), AllocError>
    ensures { OnOk result (AreNoted (map element_seen elements.now) ranks.old.items ranks.new.items) }
{
    for element in elements {
        note_rank(&element.body, ranks)?;
    }
    Ok(())
}

/// The places of all layers of a file, those of a layer of several elements as often.
fn ranks_of(alloc: Global, lib: &Library<'_>) -> Result<Vec<u32>, AllocError>
    ensures { IfOk result (λ v. AreRanks lib.now (length lib.now.structures) v.items) }
{
    let mut ranks = Vec::new(alloc);
    for structure in 0..lib.count() {
        note_ranks(lib.elements(structure), &mut ranks)?;
    }
    Ok(ranks)
}

/// Sorts numbers, and keeps each once.
fn sort_once(ranks: &mut Vec<u32>)
    ensures rises { IsStrictlyIncreasing ranks.new.items }
    ensures keeps { (r : ℕ) → Contains ranks.old.items r → Contains ranks.new.items r }
    ensures adds_none { (r : ℕ) → Contains ranks.new.items r → Contains ranks.old.items r }
{
    ranks.sort_unstable();
    ranks.dedup();
}

/// The layers of a file, in order, each once, with how many elements of each kind lie on them.
pub(crate) fn layers_of(alloc: Global, lib: &Library<'_>) -> Result<Vec<LayerCounts>, AllocError>
    ensures { IfOk result (λ v. AreLayerCounts lib.now v.items) }
{
    let mut ranks = ranks_of(alloc, lib)?;
    sort_once(&mut ranks);
    let mut table = empty_table(alloc, &ranks)?;
    tally_file(lib, &ranks, &mut table)?;
    Ok(table)
}
