//! Checks two masks of a layer.
ghost use Rattle.std.specs.Prelude.{Option, ◌≤◌, IfOk};
ghost use Rattle.dpl_spec_split.specs.Components.{AreComponents};
ghost use Rattle.dpl_spec_split.specs.Marks.{AreMarks, Marks};
ghost use Rattle.dpl_spec_split.specs.Squares.{Covers};
ghost use Rattle.dpl_cert.specs.Grammar.{IsCert, IsRule};
ghost use Rattle.dpl_spec_verdict.specs.Masks.{IsOfMasks, IsVerdictOfMasks, VerdictFromCounts, VerdictFromMarked, VerdictFromOverlap};
ghost use Rattle.dpl_check.specs.Claims.{HasBoth, IsBrokenByMarks, IsBrokenOnMasks, IsCovered, IsFit, claim_view};

use crate::counts::{counts, rules_differ};
use crate::cover::{doubled, uncovered};
use crate::gains::verdict_of_gains;
use crate::letters::bad_piece;
use crate::marks::misplaced;
use crate::spacing::too_close;
use crate::stitch::bad_stitch;
use dpl_base::{Listed, Spacing};
use dpl_cert::{Cert, Gain, Head, PieceLine, StitchLine, named_corner};
use dpl_feature::features;
use dpl_slabs::{Parts, Slabs};
use dpl_spec_verdict::Verdict;
use std::alloc::{AllocError, Global};

/// Masks of a layer, the squares that are fixed to each, what their certificate says, and what they are to keep to.
#[derive(Drop)]
struct Claim<'a> {
    layer: &'a Slabs,
    a: &'a Slabs,
    b: &'a Slabs,
    mark_a: &'a Slabs,
    mark_b: &'a Slabs,
    head: &'a Head,
    pieces: &'a [PieceLine],
    stitches: &'a [StitchLine],
    gains: &'a Option<Listed<Gain>>,
    spacing: Spacing,
    overlap: u32,
}

/// Whether masks `a` and `b` of a layer, with their certificate, are right for a spacing and an overlap in database units: the first property that is broken, or that none is. Squares of the layer in `mark_a` and `mark_b` are to be on mask A and mask B alone, and cut no zones, which the counts tell. Lines of gains are compared with the components of the layer's pieces.
pub fn check_masks(
    alloc: Global,
    layer: &Slabs,
    a: &Slabs,
    b: &Slabs,
    cert: &Cert,
    spacing: Spacing,
    overlap: u32,
    mark_a: &Slabs,
    mark_b: &Slabs,
) -> Result<Verdict, AllocError>
    requires corner { spacing.corner ≤ spacing.rule }
    requires kind { IsOfMasks cert.now }
    requires cert { IsCert cert.now }
    requires rule { IsRule spacing.rule }
    requires overlap { IsRule overlap }
    ensures { (marks : Option Marks) → AreMarks mark_a.now mark_b.now marks → IfOk result (λ v. IsVerdictOfMasks marks spacing overlap layer.now a.now b.now cert.now v) }
{
    let Cert::Masks {
        head,
        pieces,
        stitches,
        gains,
    } = cert
    else {
        unreachable!()
    };
    if rules_differ(head, spacing, overlap) {
        return Ok(Verdict::Rules {
            rule: head.rule,
            overlap: head.overlap,
            corner: named_corner(head, gains),
        });
    }
    let claim = Claim {
        layer,
        a,
        b,
        mark_a,
        mark_b,
        head,
        pieces: pieces.items(),
        stitches: stitches.items(),
        gains,
        spacing,
        overlap,
    };
    verdict_from_counts(alloc, &claim)
}

/// The first property that is broken, or that none is, from the number of features on.
fn verdict_from_counts(alloc: Global, claim: &Claim<'_>) -> Result<Verdict, AllocError>
    requires { IsFit claim.now }
    ensures { (marks : Option Marks) → AreMarks claim.now.mark_a.now claim.now.mark_b.now marks → IfOk result (VerdictFromCounts marks claim.now.spacing claim.now.overlap (claim_view claim.now)) }
{
    let features = features(alloc, claim.layer)?;
    if features.items().len() as u64 != claim.head.features {
        return counts(
            alloc,
            claim.layer,
            claim.spacing,
            claim.overlap,
            claim.mark_a,
            claim.mark_b,
        );
    }
    if let Some(at) = uncovered(alloc, claim.layer, claim.a, claim.b)? {
        return Ok(Verdict::Cover { at });
    }
    verdict_from_overlap(alloc, claim, features)
}

/// The same from the squares on both masks on, where the masks cover the layer.
fn verdict_from_overlap(
    alloc: Global,
    claim: &Claim<'_>,
    features: Parts,
) -> Result<Verdict, AllocError>
    requires fit { IsFit claim.now }
    requires features { AreComponents (Covers claim.now.layer.now) features }
    requires covered { IsCovered claim.now }
    ensures { (marks : Option Marks) → AreMarks claim.now.mark_a.now claim.now.mark_b.now marks → IfOk result (VerdictFromOverlap marks claim.now.spacing claim.now.overlap (claim_view claim.now)) }
{
    let both = claim.a.meet(alloc, claim.b)?;
    let broken = broken_on_masks(alloc, claim, &features, &both);
    drop(features);
    if let Some(verdict) = broken? {
        return Ok(verdict);
    }
    verdict_from_marked(alloc, claim, both)
}

/// What is broken of the masks alone, if anything is: what is on both of them, or the spacing on one.
fn broken_on_masks(
    alloc: Global,
    claim: &Claim<'_>,
    features: &Parts,
    both: &Slabs,
) -> Result<Option<Verdict>, AllocError>
    requires fit { IsFit claim.now }
    requires features { AreComponents (Covers claim.now.layer.now) features.now }
    requires covered { IsCovered claim.now }
    requires both { HasBoth claim.now both.now }
    ensures { IfOk result (IsBrokenOnMasks claim.now.spacing (claim_view claim.now)) }
{
    if let Some(at) = doubled(alloc, both, claim.stitches)? {
        return Ok(Some(Verdict::Overlap { at }));
    }
    if let Some((first, second)) = too_close(
        alloc,
        claim.layer,
        features,
        claim.a,
        claim.spacing,
    )? {
        return Ok(Some(Verdict::SpacingA { first, second }));
    }
    if let Some((first, second)) = too_close(
        alloc,
        claim.layer,
        features,
        claim.b,
        claim.spacing,
    )? {
        return Ok(Some(Verdict::SpacingB { first, second }));
    }
    Ok(None)
}

/// The first property that is broken, or that none is, from the marked squares on.
fn verdict_from_marked(alloc: Global, claim: &Claim<'_>, both: Slabs) -> Result<Verdict, AllocError>
    requires fit { IsFit claim.now }
    requires both { HasBoth claim.now both }
    ensures { (marks : Option Marks) → AreMarks claim.now.mark_a.now claim.now.mark_b.now marks → IfOk result (VerdictFromMarked marks claim.now.spacing claim.now.overlap (claim_view claim.now)) }
{
    let broken = broken_by_marks(alloc, claim, &both);
    drop(both);
    if let Some(verdict) = broken? {
        return Ok(verdict);
    }
    if let Some(index) = bad_piece(alloc, claim.a, claim.b, claim.pieces)? {
        return Ok(Verdict::Piece { index });
    }
    verdict_of_gains(
        alloc,
        claim.layer,
        claim.head,
        claim.pieces,
        claim.gains,
        claim.spacing,
        claim.overlap,
        claim.mark_a,
        claim.mark_b,
    )
}

/// What is broken of the marked squares or of the stitches, if anything is.
fn broken_by_marks(
    alloc: Global,
    claim: &Claim<'_>,
    both: &Slabs,
) -> Result<Option<Verdict>, AllocError>
    requires fit { IsFit claim.now }
    requires both { HasBoth claim.now both.now }
    ensures { (marks : Option Marks) → AreMarks claim.now.mark_a.now claim.now.mark_b.now marks → IfOk result (IsBrokenByMarks marks claim.now.overlap (claim_view claim.now)) }
{
    if let Some(at) = misplaced(
        alloc,
        claim.layer,
        claim.a,
        claim.b,
        claim.mark_a,
        claim.mark_b,
    )? {
        return Ok(Some(Verdict::Marked { at }));
    }
    if let Some(index) = bad_stitch(alloc, both, claim.pieces, claim.stitches, claim.overlap)? {
        return Ok(Some(Verdict::Stitch { index }));
    }
    Ok(None)
}
