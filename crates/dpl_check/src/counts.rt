//! Whether a certificate is for the rules and the layer that are checked.
ghost use Rattle.std.specs.Prelude.{Option, ◌≡◌, ◌≤◌, ◌↔◌, ℕ, IsTrue, IfOk, length};
ghost use Rattle.dpl_spec_split.specs.Squares.{Covers};
ghost use Rattle.dpl_spec_split.specs.Marks.{AreMarks, Marks};
ghost use Rattle.dpl_spec_verdict.specs.Order.{AreCounts, RulesDiffer, ShowsCounts};
ghost use Rattle.dpl_check.specs.Cutting.{HasOtherCounts, ShowsCountsOf};

use dpl_base::Spacing;
use dpl_cert::Head;
use dpl_cut::{LayerCut, cut_within};
use dpl_slabs::Slabs;
use dpl_spec_verdict::Verdict;
use std::alloc::{AllocError, Global};

/// Whether the certificate is for another rule, another overlap or another corner rule.
pub(crate) fn rules_differ(head: &Head, spacing: Spacing, overlap: u32) -> bool
    ensures { IsTrue result ↔ RulesDiffer spacing overlap head.now }
{
    head.rule != spacing.rule || head.overlap != overlap || head.corner != spacing.corner
}

/// Tells how many features, pieces and zones a cut has.
pub(crate) fn counts_of(cut: &LayerCut) -> Verdict
    ensures { ShowsCountsOf cut.now result }
{
    Verdict::Counts {
        features: cut.features,
        pieces: cut.pieces.parts().items().len() as u64,
        zones: cut.pieces.zones().len() as u64,
    }
}

/// Tells how many features, pieces and zones a layer has, with squares that are fixed to mask A and to mask B.
pub(crate) fn counts(
    alloc: Global,
    layer: &Slabs,
    spacing: Spacing,
    overlap: u32,
    mark_a: &Slabs,
    mark_b: &Slabs,
) -> Result<Verdict, AllocError>
    requires corner { spacing.corner ≤ spacing.rule }
    requires overlap { 1 ≤ overlap }
    ensures { (marks : Option Marks) → AreMarks mark_a.now mark_b.now marks → IfOk result (λ v. ShowsCounts marks spacing overlap layer.now v) }
{
    let marked = mark_a.union(alloc, mark_b)?;
    let cut = cut_within(alloc, layer, spacing, overlap, &marked)?;
    Ok(counts_of(&cut))
}

/// Whether the certificate counts other features, pieces or zones than the cut has.
pub(crate) fn counts_differ(head: &Head, cut: &LayerCut) -> bool
    ensures { IsTrue result ↔ HasOtherCounts head.now cut.now }
{
    cut.features != head.features
        || cut.pieces.parts().items().len() as u64 != head.pieces
        || cut.pieces.zones().len() as u64 != head.zones
}
