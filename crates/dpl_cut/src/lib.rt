//! A layer cut into pieces: its features, their stitch zones, and what the zones leave of the features.
#![tactic(auto)]

ghost use Rattle.std.specs.Prelude.{◌≡◌, ◌≤◌, IfOk, List, Option};
ghost use Rattle.dpl_spec_split.specs.declared.Rect.{Rect};
ghost use Rattle.dpl_spec_split.specs.Squares.{Covers};
ghost use Rattle.dpl_spec_split.specs.Components.{AreComponents};
ghost use Rattle.dpl_spec_split.specs.Marks.{Marks};
ghost use Rattle.dpl_piece.specs.Cutting.{AreFeatures, Completes};
ghost use Rattle.dpl_piece.specs.View.{IsMarkedSet};
ghost use Rattle.dpl_cut.specs.Cutting.{HasPointKeys, IsBareCutOf, IsCutOf};

use dpl_base::Spacing;
use dpl_feature::features;
use dpl_piece::{BarePieces, Pieces, bare_pieces};
use dpl_slabs::{Parts, Slabs};
use dpl_zone::zones;
use std::alloc::{AllocError, Global};

/// A layer cut into pieces.
#[derive(Drop)]
pub struct LayerCut {
    /// How many features the layer has.
    pub features: u64,
    /// Their pieces, with those on the two sides of each zone.
    pub pieces: Pieces,
}

/// A layer cut into pieces, before it is known which of them stand beside which zone.
#[derive(Drop)]
pub struct BareLayerCut {
    /// How many features the layer has.
    pub features: u64,
    /// Their pieces.
    pub pieces: BarePieces,
}

impl BareLayerCut {
    /// The same, with the pieces on the two sides of each zone.
    ///
    /// The error: out of memory.
    pub fn completed(self, alloc: Global) -> Result<LayerCut, AllocError>
        ensures features { IfOk result (λ c. c.features ≡ self.features) }
        ensures pieces { IfOk result (λ c. Completes self.pieces c.pieces) }
    {
        let pieces = self.pieces.completed(alloc)?;
        Ok(LayerCut {
            features: self.features,
            pieces,
        })
    }
}

/// The features of a layer, cut at the zones where a stitch may stand: `spacing` is how far apart features are on one mask, `overlap` how long a stitch is, in database units. No zone has a marked square. The layer is let go as soon as its features are known.
///
/// The error: out of memory.
pub fn cut_of(
    alloc: Global,
    layer: Slabs,
    spacing: Spacing,
    overlap: u32,
    marked: &Slabs,
) -> Result<BareLayerCut, AllocError>
    requires corner { spacing.corner ≤ spacing.rule }
    requires overlap { 1 ≤ overlap }
    ensures cut { (marks : Option Marks) → IsMarkedSet marked.now marks → IfOk result (IsBareCutOf marks spacing overlap (Covers layer)) }
    ensures keys { IfOk result HasPointKeys }
{
    let features = features(alloc, &layer)?;
    drop(layer);
    cut_features(alloc, features, spacing, overlap, marked)
}

/// The features of a layer that is needed afterwards, cut as by `cut_of`, with the pieces on the two sides of each zone.
///
/// The error: out of memory.
pub fn cut_within(
    alloc: Global,
    layer: &Slabs,
    spacing: Spacing,
    overlap: u32,
    marked: &Slabs,
) -> Result<LayerCut, AllocError>
    requires corner { spacing.corner ≤ spacing.rule }
    requires overlap { 1 ≤ overlap }
    ensures { (marks : Option Marks) → IsMarkedSet marked.now marks → IfOk result (IsCutOf marks spacing overlap (Covers layer.now)) }
{
    let features = features(alloc, layer)?;
    let cut = cut_features(alloc, features, spacing, overlap, marked)?;
    cut.completed(alloc)
}

/// Features, cut at their zones.
fn cut_features(
    alloc: Global,
    features: Parts,
    spacing: Spacing,
    overlap: u32,
    marked: &Slabs,
) -> Result<BareLayerCut, AllocError>
    requires corner { spacing.corner ≤ spacing.rule }
    requires overlap { 1 ≤ overlap }
    requires features { AreFeatures features }
    ensures cut { (layer : List Rect) (marks : Option Marks) → AreComponents (Covers layer) features → IsMarkedSet marked.now marks → IfOk result (IsBareCutOf marks spacing overlap (Covers layer)) }
    ensures keys { IfOk result HasPointKeys }
{
    let zones = zones(alloc, &features, spacing, overlap, marked)?;
    let count = features.items().len() as u64;
    let pieces = bare_pieces(alloc, features, zones)?;
    Ok(BareLayerCut {
        features: count,
        pieces,
    })
}
