//! Stitches that don't stand where, or aren't what, a certificate says.
ghost use Rattle.std.specs.Prelude.{◌≡◌, ◌≢◌, ◌<◌, ◌⊎◌, ◌↔◌, pos, ◌-ℤ◌, ◌≤ℤ◌, IsTrue, IsNone, IfSome, IfOk, [], length};
ghost use Rattle.std.specs.List.{All, Contains};
ghost use Rattle.dpl_cert.specs.Grammar.{IsCoordinate, IsRect, IsStitch};
ghost use Rattle.dpl_cert.specs.declared.cert.StitchLine.{StitchLine};
ghost use Rattle.dpl_spec_split.specs.declared.Pt.{Pt};
ghost use Rattle.dpl_spec_split.specs.Squares.{Covers, Has};
ghost use Rattle.dpl_spec_split.specs.Loops.{farthest, IsRectWithin};
ghost use Rattle.dpl_tree.specs.declared.owners.Owners.TheVariants.{All as Everyone};
ghost use Rattle.dpl_nearest.specs.Search.{AreSolidItems, ItemCovers};
ghost use Rattle.dpl_spec_verdict.specs.Masks.{piece_at};
ghost use Rattle.dpl_check.specs.Findings.{IsFirstBadOf, IsRightStitch, IsWrongStitch};

use crate::window::is_met;
use dpl_base::{Rect, WideRect, round_one};
use dpl_cert::{PieceLine, StitchLine};
use dpl_nearest::tree_of;
use dpl_slabs::Slabs;
use dpl_tree::Tree;
use std::alloc::{AllocError, Global};

/// Whether two coordinates are at least the overlap apart.
fn is_span(low: i64, high: i64, overlap: u32) -> bool
    requires low { IsCoordinate low }
    requires high { IsCoordinate high }
    ensures { IsTrue result ↔ (pos overlap ≤ℤ (high -ℤ low)) }
{
    high - low >= overlap as i64
}

/// Whether the width or the height is at least the overlap.
fn is_long(r: &Rect, overlap: u32) -> bool
    requires { IsRect r.now }
    ensures { IsTrue result ↔ ((pos overlap ≤ℤ (r.now.x1 -ℤ r.now.x0)) ⊎ (pos overlap ≤ℤ (r.now.y1 -ℤ r.now.y0))) }
{
    if is_span(r.x0 as i64, r.x1 as i64, overlap) {
        return true;
    }
    is_span(r.y0 as i64, r.y1 as i64, overlap)
}

/// Whether both are pieces, of different letters.
fn are_parted(pieces: &[PieceLine], p: u64, q: u64) -> bool
    ensures { IsTrue result ↔ (((p < length pieces.now) × (q < length pieces.now)) × ((piece_at pieces.now p).b ≢ (piece_at pieces.now q).b)) }
{
    if p >= pieces.len() as u64 {
        return false;
    }
    if q >= pieces.len() as u64 {
        return false;
    }
    if pieces[p as usize].b == pieces[q as usize].b {
        return false;
    }
    true
}

/// Whether a stitch has no square among those that aren't on both masks, and is long and parts pieces of two letters.
fn is_right(s: &StitchLine, pieces: &[PieceLine], off: &Tree, overlap: u32) -> bool
    requires fits { IsStitch s.now }
    requires items { AreSolidItems off.now }
    ensures { IsTrue result ↔ IsRightStitch overlap (ItemCovers Everyone off.now) pieces.now s.now }
{
    if is_met(off, &WideRect::of(&s.rect)) {
        return false;
    }
    if !is_long(&s.rect, overlap) {
        return false;
    }
    are_parted(pieces, s.p, s.q)
}

/// The first stitch that isn't right.
fn first_wrong(
    stitches: &[StitchLine],
    pieces: &[PieceLine],
    off: &Tree,
    overlap: u32,
) -> Option<u64>
    requires fits { All IsStitch stitches.now }
    requires items { AreSolidItems off.now }
    ensures { IsFirstBadOf (IsWrongStitch overlap (ItemCovers Everyone off.now) pieces.now) stitches.now result }
{
    for k in 0..stitches.len() {
        if !is_right(&stitches[k], pieces, off, overlap) {
            return Some(k as u64);
        }
    }
    None
}

/// A rectangle in range that has all squares of all stitches; none only where there are no stitches.
fn bounds_of(stitches: &[StitchLine]) -> Option<Rect>
    requires { All IsStitch stitches.now }
    ensures none { IsNone result → stitches.now ≡ [] }
    ensures within { IfSome result (IsRectWithin farthest) }
    ensures all { IfSome result (λ b. (s : StitchLine) (p : Pt) → Contains stitches.now s → Has s.rect p → Has b p) }
{
    let mut bounds = None;
    for stitch in stitches {
        bounds = round_one(bounds, &stitch.rect);
    }
    bounds
}

/// The first stitch that has a square outside those on both masks, is shorter than `overlap` database units both ways, or doesn't part pieces of two letters.
pub(crate) fn bad_stitch(
    alloc: Global,
    both: &Slabs,
    pieces: &[PieceLine],
    stitches: &[StitchLine],
    overlap: u32,
) -> Result<Option<u64>, AllocError>
    requires { All IsStitch stitches.now }
    ensures { IfOk result (λ found. IsFirstBadOf (IsWrongStitch overlap (λ p. ¬ Covers both.now p) pieces.now) stitches.now found) }
{
    let Some(bounds) = bounds_of(stitches) else {
        return Ok(None);
    };
    let off = Slabs::of_rects_without(alloc, &[bounds], both.rects())?;
    let tree = tree_of(alloc, off.rects())?;
    Ok(first_wrong(stitches, pieces, &tree, overlap))
}
