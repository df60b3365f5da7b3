//! Squares that the masks lack, have too many of, or have twice.
ghost use Rattle.std.specs.Prelude.{◌≡◌, IfOk, map};
ghost use Rattle.std.specs.List.{All};
ghost use Rattle.dpl_cert.specs.declared.cert.StitchLine.{StitchLine};
ghost use Rattle.dpl_cert.specs.Grammar.{IsStitch};
ghost use Rattle.dpl_spec_split.specs.Slabs.{AreSlabsOf};
ghost use Rattle.dpl_spec_split.specs.Squares.{Covers};
ghost use Rattle.dpl_spec_verdict.specs.Masks.{is_uncovered};
ghost use Rattle.dpl_check.specs.Findings.{IsLeastOf, is_in_one, is_unlisted};

use dpl_base::{Pt, Rect};
use dpl_cert::StitchLine;
use dpl_slabs::Slabs;
use std::alloc::{AllocError, Global};

/// The squares that are in just one of the two sets.
fn difference(alloc: Global, layer: &Slabs, masks: &Slabs) -> Result<Slabs, AllocError>
    ensures { IfOk result (AreSlabsOf (is_in_one layer.now masks.now)) }
{
    let missing = layer.minus(alloc, masks)?;
    let added = masks.minus(alloc, layer)?;
    missing.union(alloc, &added)
}

/// The least square that is in just one of the layer and both masks together.
pub(crate) fn uncovered(
    alloc: Global,
    layer: &Slabs,
    a: &Slabs,
    b: &Slabs,
) -> Result<Option<Pt>, AllocError>
    ensures { IfOk result (λ found. IsLeastOf (is_uncovered layer.now a.now b.now) found) }
{
    let masks = a.union(alloc, b)?;
    if layer.equal(&masks) {
        return Ok(None);
    }
    let all = difference(alloc, layer, &masks)?;
    Ok(all.least())
}

/// The rectangles of stitches.
fn rects_of(alloc: Global, stitches: &[StitchLine]) -> Result<Vec<Rect>, AllocError>
    ensures { IfOk result (λ v. v.items ≡ map (λ (s : StitchLine). s.rect) stitches.now) }
{
    stitches.iter().map(|s| s.rect).collect(alloc)
}

/// The least of the squares on both masks that is in no listed stitch.
pub(crate) fn doubled(
    alloc: Global,
    both: &Slabs,
    stitches: &[StitchLine],
) -> Result<Option<Pt>, AllocError>
    requires { All IsStitch stitches.now }
    ensures { IfOk result (λ found. IsLeastOf (is_unlisted both.now stitches.now) found) }
{
    if both.rects().is_empty() {
        return Ok(None);
    }
    let listed = rects_of(alloc, stitches)?;
    let left = Slabs::of_rects_without(alloc, both.rects(), &listed)?;
    Ok(left.least())
}
