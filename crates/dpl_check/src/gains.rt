//! Lines of gains that aren't those of the layer's components.
ghost use Rattle.std.specs.Prelude.{◌≡◌, ◌≤◌, ◌<◌, ◌↔◌, IsTrue, IfOk, IfSome, IfNone, List, Option, Some, length, slice_get};
ghost use Rattle.dpl_spec_split.specs.declared.Rect.{Rect};
ghost use Rattle.dpl_spec_split.specs.Marks.{AreMarks, Marks};
ghost use Rattle.dpl_piece.specs.View.{IsMarkedSet, cut_view};
ghost use Rattle.dpl_spec_verdict.specs.Gains.{letters, HasBadGain, IsFirstBadGain, VerdictOfGains};
ghost use Rattle.dpl_check.specs.Cutting.{CountsOtherPieces, VerdictOfGainsByCut};

use dpl_base::{Listed, Spacing};
use dpl_cert::{Gain, Head, PieceLine};
use dpl_cut::{LayerCut, cut_within};
use dpl_gains::gains_of;
use dpl_slabs::Slabs;
use dpl_spec_verdict::Verdict;
use std::alloc::{AllocError, Global};

/// Whether the line is the gain at this place, and no more zones have differing letters on their sides than equal ones.
fn is_good(line: &Gain, found: &[Gain], k: usize) -> bool
    ensures { IsTrue result ↔ ((slice_get found.now k ≡ Some line.now) × (line.now.d ≤ line.now.s)) }
{
    if k >= found.len() {
        return false;
    }
    if found[k] != *line {
        return false;
    }
    line.d <= line.s
}

/// The first line that isn't the gain at its place, or whose component's flip leaves fewer stitches; where all are right and some are missing, the number of lines.
fn first_bad(found: &[Gain], lines: &[Gain]) -> Option<u64>
    ensures some { IfSome result (IsFirstBadGain found.now lines.now) }
    ensures none { IfNone result (¬ HasBadGain found.now lines.now) }
{
    for k in 0..lines.len() {
        if !is_good(&lines[k], found, k) {
            return Some(k as u64);
        }
    }
    if lines.len() < found.len() {
        return Some(lines.len() as u64);
    }
    None
}

/// The letters of the piece lines.
fn letters_of(alloc: Global, pieces: &[PieceLine]) -> Result<Vec<bool>, AllocError>
    ensures { IfOk result (λ v. v.items ≡ letters pieces.now) }
{
    pieces.iter().map(|line| line.b).collect(alloc)
}

/// Whether the certificate counts other pieces or zones than the cut has.
fn counts_other_pieces(head: &Head, cut: &LayerCut) -> bool
    ensures { IsTrue result ↔ CountsOtherPieces head.now cut.now }
{
    cut.pieces.parts().items().len() as u64 != head.pieces
        || cut.pieces.zones().len() as u64 != head.zones
}

/// What is said of lines of gains by a cut of the layer and its marked squares: that they are valid, or which is the first that is wrong.
fn verdict_by_cut(
    alloc: Global,
    cut: &LayerCut,
    marked: &Slabs,
    head: &Head,
    pieces: &[PieceLine],
    lines: &[Gain],
    spacing: Spacing,
) -> Result<Verdict, AllocError>
    requires corner { spacing.corner ≤ spacing.rule }
    requires pieces { length pieces.now ≡ head.now.pieces }
    ensures { (features : List (List Rect)) (marks : Option Marks) → IsMarkedSet marked.now marks → IfOk result (VerdictOfGainsByCut marks spacing (cut_view features cut.now.pieces) head.now (letters pieces.now) lines.now) }
{
    if counts_other_pieces(head, cut) {
        return Ok(Verdict::Gain { index: 0 });
    }
    let letters = letters_of(alloc, pieces)?;
    let found = gains_of(alloc, &cut.pieces, &letters, marked, spacing)?;
    match first_bad(&found, lines) {
        Some(index) => Ok(Verdict::Gain { index }),
        None => Ok(Verdict::Valid),
    }
}

/// What is said of lines of gains, if there are any: that they are valid, or which is the first that is wrong.
pub(crate) fn verdict_of_gains(
    alloc: Global,
    layer: &Slabs,
    head: &Head,
    pieces: &[PieceLine],
    gains: &Option<Listed<Gain>>,
    spacing: Spacing,
    overlap: u32,
    mark_a: &Slabs,
    mark_b: &Slabs,
) -> Result<Verdict, AllocError>
    requires corner { spacing.corner ≤ spacing.rule }
    requires overlap { 1 ≤ overlap }
    requires pieces { length pieces.now ≡ head.now.pieces }
    ensures { (marks : Option Marks) → AreMarks mark_a.now mark_b.now marks → IfOk result (λ v. VerdictOfGains marks spacing overlap layer.now head.now (letters pieces.now) gains.now v) }
{
    let Some(lines) = gains else {
        return Ok(Verdict::Valid);
    };
    let marked = mark_a.union(alloc, mark_b)?;
    let cut = cut_within(alloc, layer, spacing, overlap, &marked)?;
    verdict_by_cut(alloc, &cut, &marked, head, pieces, lines.items(), spacing)
}
