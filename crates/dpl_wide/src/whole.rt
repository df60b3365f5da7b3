//! A layer cut into pieces by workers.
ghost use Rattle.std.specs.Prelude.{◌≡◌, ◌≤◌, IfOk, Option};
ghost use Rattle.dpl_spec_split.specs.Squares.{Covers};
ghost use Rattle.dpl_spec_split.specs.Marks.{Marks};
ghost use Rattle.dpl_piece.specs.View.{IsMarkedSet};
ghost use Rattle.dpl_cut.specs.Cutting.{HasPointKeys, IsBareCutOf};

use dpl_base::Spacing;
use dpl_cut::{BareLayerCut, cut_of};
use dpl_feature::features;
use dpl_piece::bare_pieces_by;
use dpl_slabs::Slabs;
use dpl_zone::zones_by;
use std::alloc::{AllocError, Global};
use std::thread::Threads;

/// The features of a layer, cut at the zones where a stitch may stand, as `dpl_cut::cut_of` cuts them, by so many workers: `spacing` is how far apart features are on one mask, `overlap` how long a stitch is, in database units. No zone has a marked square. The layer is let go as soon as its features are known.
///
/// The error: out of memory.
pub fn cut_by<R: Threads + Sync>(
    rt: &R,
    alloc: Global,
    layer: Slabs,
    spacing: Spacing,
    overlap: u32,
    marked: &Slabs,
    workers: u32,
) -> Result<BareLayerCut, AllocError>
    requires corner { spacing.corner ≤ spacing.rule }
    requires overlap { 1 ≤ overlap }
    ensures cut { (marks : Option Marks) → IsMarkedSet marked.now marks → IfOk result (IsBareCutOf marks spacing overlap (Covers layer)) }
    ensures keys { IfOk result HasPointKeys }
{
    if workers < 2 {
        return cut_of(alloc, layer, spacing, overlap, marked);
    }
    let features = features(alloc, &layer)?;
    drop(layer);
    let zones = zones_by(rt, alloc, &features, spacing, overlap, marked, workers)?;
    let count = features.items().len() as u64;
    let pieces = bare_pieces_by(rt, alloc, features, zones, workers)?;
    Ok(BareLayerCut {
        features: count,
        pieces,
    })
}
