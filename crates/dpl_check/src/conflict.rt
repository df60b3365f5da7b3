//! Checks an odd cycle of a layer's pieces and anchors.
ghost use Rattle.std.specs.Prelude.{◌≡◌, ◌≤◌, IfOk, List, length};
ghost use Rattle.std.specs.List.{All};
ghost use Rattle.dpl_spec_split.specs.declared.Rect.{Rect};
ghost use Rattle.dpl_spec_split.specs.Marks.{asked};
ghost use Rattle.dpl_spec_split.specs.Squares.{Covers};
ghost use Rattle.dpl_cert.specs.Grammar.{IsCert, IsNear, IsRule};
ghost use Rattle.dpl_cut.specs.Cutting.{IsCutOf};
ghost use Rattle.dpl_piece.specs.View.{IsMarkedSet};
ghost use Rattle.dpl_spec_verdict.specs.Conflicts.{IsOfConflict, IsVerdictOfConflict};
ghost use Rattle.dpl_check.specs.Cutting.{VerdictOfConflictByCut};

use crate::counts::{counts_differ, counts_of, rules_differ};
use crate::place::bad_place;
use dpl_base::Spacing;
use dpl_cert::{Cert, Head, NearLine, PlaceLine, named_corner};
use dpl_cut::{LayerCut, cut_within};
use dpl_slabs::Slabs;
use dpl_spec_verdict::Verdict;
use std::alloc::{AllocError, Global};

/// The squares of both sets, where marks are asked for.
fn marked_squares(
    alloc: Global,
    mark_a: &Slabs,
    mark_b: &Slabs,
    marks: bool,
) -> Result<Slabs, AllocError>
    ensures { IfOk result (λ s. IsMarkedSet s (asked marks mark_a.now mark_b.now)) }
{
    if marks {
        return mark_a.union(alloc, mark_b);
    }
    Ok(Slabs::empty(alloc))
}

/// The cut of the layer, where squares of both sets cut no zones, if marks are asked for.
fn asked_cut(
    alloc: Global,
    layer: &Slabs,
    spacing: Spacing,
    overlap: u32,
    mark_a: &Slabs,
    mark_b: &Slabs,
    marks: bool,
) -> Result<LayerCut, AllocError>
    requires corner { spacing.corner ≤ spacing.rule }
    requires overlap { 1 ≤ overlap }
    ensures { IfOk result (IsCutOf (asked marks mark_a.now mark_b.now) spacing overlap (Covers layer.now)) }
{
    let marked = marked_squares(alloc, mark_a, mark_b, marks)?;
    cut_within(alloc, layer, spacing, overlap, &marked)
}

/// What is said of the odd cycle by a cut of the layer: the first property that is broken, or that none is.
fn verdict_by_cut(
    alloc: Global,
    cut: &LayerCut,
    head: &Head,
    cycle: &[PlaceLine],
    near: &[NearLine],
    spacing: Spacing,
    mark_a: &Slabs,
    mark_b: &Slabs,
    marks: bool,
) -> Result<Verdict, AllocError>
    requires corner { spacing.corner ≤ spacing.rule }
    requires each { length near.now ≡ length cycle.now }
    requires lines { All IsNear near.now }
    ensures { (layer : List Rect) → IfOk result (VerdictOfConflictByCut (asked marks mark_a.now mark_b.now) spacing cut.now (record { layer = layer; head = head.now; cycle = cycle.now; near = near.now })) }
{
    if counts_differ(head, cut) {
        return Ok(counts_of(cut));
    }
    match bad_place(alloc, cut, cycle, near, spacing, mark_a, mark_b, marks)? {
        Some(place) => Ok(Verdict::Cycle { place }),
        None => Ok(Verdict::Valid),
    }
}

/// Whether the odd cycle of a certificate is one of the layer's, for a spacing and an overlap in database units: the first property that is broken, or that none is. Where marks are asked for, squares of `mark_a` and `mark_b` cut no zones, and join their pieces to the anchor of mask B and to that of mask A; else the two sets aren't looked at, and the cycle has no anchors.
pub fn check_conflict(
    alloc: Global,
    layer: &Slabs,
    cert: &Cert,
    spacing: Spacing,
    overlap: u32,
    mark_a: &Slabs,
    mark_b: &Slabs,
    marks: bool,
) -> Result<Verdict, AllocError>
    requires corner { spacing.corner ≤ spacing.rule }
    requires kind { IsOfConflict cert.now }
    requires cert { IsCert cert.now }
    requires rule { IsRule spacing.rule }
    requires overlap { IsRule overlap }
    ensures { IfOk result (λ v. IsVerdictOfConflict (asked marks mark_a.now mark_b.now) spacing overlap layer.now cert.now v) }
{
    let Cert::Conflict { head, cycle, near } = cert else {
        unreachable!()
    };
    if rules_differ(head, spacing, overlap) {
        return Ok(Verdict::Rules {
            rule: head.rule,
            overlap: head.overlap,
            corner: named_corner(head, &None),
        });
    }
    let cut = asked_cut(alloc, layer, spacing, overlap, mark_a, mark_b, marks)?;
    let (cycle, near) = (cycle.items(), near.items());
    verdict_by_cut(
        alloc, &cut, head, cycle, near, spacing, mark_a, mark_b, marks,
    )
}
