//! The lines of a certificate.
ghost use Rattle.std.specs.Prelude.{◌≡◌, ◌<◌, ◌≤◌, ℕ, IfOk, length, map};
ghost use Rattle.std.specs.List.{All, AllByRecursion, Contains, zip};
ghost use Rattle.dpl_spec_split.specs.declared.Pt.{Pt};
ghost use Rattle.dpl_spec_split.specs.Loops.{farthest};
ghost use Rattle.dpl_spec_split.specs.Squares.{IsSolidWithin};
ghost use Rattle.dpl_orient.specs.Masks.{is_second};
ghost use Rattle.dpl_cert.specs.Grammar.{IsHead, IsNumber, IsPiece, IsPlace, IsPoint, IsRule, IsStitch};
ghost use Rattle.dpl_law_verdict.specs.Own.{head_of, piece_line, place_line, stitch_line};
ghost use Rattle.dpl_cut.specs.Cutting.{OfAnyCut};
ghost use Rattle.dpl_answer.specs.Lines.{AreMaskLines, FitMaskLines};

use dpl_base::{Id, Listed, Spacing, Zone};
use dpl_cert::{Head, Key, PieceLine, PlaceLine, StitchLine};
use dpl_cut::LayerCut;
use dpl_masks::stitches;
use dpl_orient::{Mask, is_second};
use dpl_piece::Pieces;
use std::alloc::{AllocError, Global};

/// The lines of a certificate of masks that tell of pieces and of stitches.
#[derive(Drop)]
pub(crate) struct MaskLines {
    pub(crate) pieces: Listed<PieceLine>,
    pub(crate) stitches: Listed<StitchLine>,
}

/// The rules, and how many features, pieces and zones there are.
pub fn head(cut: &LayerCut, spacing: Spacing, overlap: u32) -> Head
    requires rule { IsRule spacing.rule }
    requires corner { spacing.corner ≤ spacing.rule }
    requires overlap { IsRule overlap }
    ensures value { OfAnyCut cut.now (λ c. result ≡ head_of spacing overlap c) }
    ensures pieces { result.pieces ≡ length cut.now.pieces.parts }
    // No certificate has a corner rule of 0.
    ensures fits { 1 ≤ spacing.corner → IsHead result }
{
    Head {
        rule: spacing.rule,
        overlap,
        corner: spacing.corner,
        features: feature_count(cut),
        pieces: cut.pieces.parts().items().len() as u64,
        zones: cut.pieces.zones().len() as u64,
    }
}

/// How many features the layer has.
fn feature_count(cut: &LayerCut) -> u64
    ensures { result ≡ cut.now.features }
{
    cut.features
}

/// A line for each piece: its mask and its least square.
fn piece_lines(alloc: Global, masks: &[Mask], pieces: &Pieces) -> Result<Vec<PieceLine>, AllocError>
    requires each { length masks.now ≡ length pieces.now.parts }
    requires within { (p : Pt) → Contains pieces.now.keys p → IsPoint p }
    ensures lines { IfOk result (λ v. v.items ≡ map piece_line (zip (map is_second masks.now) pieces.now.keys)) }
    ensures within { IfOk result (λ v. AllByRecursion IsPiece v.items) }
{
    let mut lines = Vec::with_capacity(alloc, masks.len())?;
    for (i, mask) in masks.iter().enumerate() {
        lines.push(PieceLine {
            b: is_second(*mask),
            key: Key::of(pieces.key(i)),
        })?;
    }
    Ok(lines)
}

/// A line for each stitch: its rectangle and the pieces on its sides.
fn stitch_lines(
    alloc: Global,
    zones: &[Zone],
    sides: &[(Id, Id)],
    stitches: &[Id],
) -> Result<Vec<StitchLine>, AllocError>
    requires each { length sides.now ≡ length zones.now }
    requires within { All (λ z. IsSolidWithin farthest z.rect) zones.now }
    requires numbers { All (λ side. IsNumber side.0 × IsNumber side.1) sides.now }
    requires known { (k : ℕ) → Contains stitches.now k → k < length sides.now }
    ensures lines { IfOk result (λ v. v.items ≡ map (stitch_line zones.now sides.now) stitches.now) }
    ensures within { IfOk result (λ v. AllByRecursion IsStitch v.items) }
{
    let mut lines = Vec::new(alloc);
    for k in stitches {
        let side = sides[*k as usize];
        lines.push(StitchLine {
            rect: zones[*k as usize].rect,
            p: side.0,
            q: side.1,
        })?;
    }
    Ok(lines)
}

/// A line for each piece, and one for each stitch between pieces on these masks.
///
/// The error: out of memory.
pub(crate) fn mask_lines(
    alloc: Global,
    masks: &[Mask],
    pieces: &Pieces,
) -> Result<MaskLines, AllocError>
    requires each { length masks.now ≡ length pieces.now.parts }
    requires within { (p : Pt) → Contains pieces.now.keys p → IsPoint p }
    ensures are { IfOk result (λ l. AreMaskLines pieces.now.zones pieces.now.sides pieces.now.keys (map is_second masks.now) l.pieces l.stitches) }
    ensures fit { IfOk result (λ l. FitMaskLines l.pieces l.stitches) }
{
    let lines = piece_lines(alloc, masks, pieces)?;
    let numbers = stitches(alloc, pieces.sides(), masks)?;
    let stitches = stitch_lines(alloc, pieces.zones(), pieces.sides(), &numbers)?;
    Ok(MaskLines {
        pieces: Listed::of(lines),
        stitches: Listed::of(stitches),
    })
}

/// A line for each piece of a cycle: its number and its least square.
pub fn place_lines(
    alloc: Global,
    pieces: &Pieces,
    cycle: &[Id],
) -> Result<Vec<PlaceLine>, AllocError>
    requires within { (p : Pt) → Contains pieces.now.keys p → IsPoint p }
    requires known { (k : ℕ) → Contains cycle.now k → k < length pieces.now.parts }
    ensures lines { IfOk result (λ v. v.items ≡ map (place_line pieces.now.keys) cycle.now) }
    ensures within { IfOk result (λ v. AllByRecursion IsPlace v.items) }
{
    let mut lines = Vec::new(alloc);
    for piece in cycle {
        lines.push(PlaceLine::Piece {
            piece: *piece,
            key: pieces.key(*piece as usize),
        })?;
    }
    Ok(lines)
}
