//! Places of a cycle whose pieces aren't the layer's, or that aren't joined.
ghost use Rattle.std.specs.Prelude.{◌≤◌, ◌≡◌, ◌+◌, ◌*◌, ◌<◌, ◌↔◌, List, IsTrue, IfOk, length};
ghost use Rattle.std.specs.List.{All};
ghost use Rattle.dpl_spec_split.specs.declared.Rect.{Rect};
ghost use Rattle.dpl_spec_split.specs.Squares.{d2, Near};
ghost use Rattle.dpl_spec_split.specs.Loops.{farthest};
ghost use Rattle.dpl_spec_split.specs.Zones.{part_at};
ghost use Rattle.dpl_spec_split.specs.Marks.{asked};
ghost use Rattle.dpl_cert.specs.Grammar.{IsNear, IsPoint};
ghost use Rattle.dpl_cert.specs.declared.cert.PlaceLine.{PlaceLine};
ghost use Rattle.dpl_slabs.specs.Parts.{AreParts};
ghost use Rattle.dpl_tree.specs.Trees.{AreItemsOf};
ghost use Rattle.dpl_spec_verdict.specs.Conflicts.{AreJoined, IsBadPlace, IsNamed, ShowsAnchors, ShowsConflict, ShowsMark};
ghost use Rattle.dpl_check.specs.Anchors.{marks_of};
ghost use Rattle.dpl_check.specs.Findings.{IsFirstBadOf};
ghost use Rattle.dpl_check.specs.Places.{AreNoted, IsKeyed, IsNearLine, bare};
ghost use Rattle.dpl_piece.specs.View.{cut_view};

use crate::anchors::{MarkTrees, has_anchors, is_marked_against, mark_trees};
use crate::stood::Stood;
use crate::window::owner_at;
use dpl_base::{Pt, Spacing, near};
use dpl_cert::{NearLine, PlaceLine};
use dpl_cut::LayerCut;
use dpl_nearest::unit;
use dpl_piece::Pieces;
use dpl_slabs::Slabs;
use dpl_tree::Tree;
use std::alloc::{AllocError, Global};

/// Whether the square is the piece's.
fn is_of_piece(parts: &[Slabs], tree: &Tree, p: Pt, piece: u64) -> bool
    requires point { IsPoint p }
    requires parts { AreParts parts.now }
    requires items { AreItemsOf parts.now tree.now }
    ensures { IsTrue result ↔ part_at parts.now piece p }
{
    match owner_at(tree, p) {
        Some(k) => k as u64 == piece,
        None => false,
    }
}

/// Whether two squares are near.
fn are_near(p: Pt, q: Pt, spacing: Spacing) -> bool
    requires corner { spacing.corner ≤ spacing.rule }
    requires first { IsPoint p }
    requires second { IsPoint q }
    ensures { IsTrue result ↔ Near spacing p q }
{
    let Some(first) = unit(p) else { unreachable!() };
    let Some(second) = unit(q) else {
        unreachable!()
    };
    near(&first, &second, spacing)
}

/// Whether two squares are those of the two pieces, and near.
fn is_near_line(
    parts: &[Slabs],
    tree: &Tree,
    from: Pt,
    to: Pt,
    piece: u64,
    next: u64,
    spacing: Spacing,
) -> bool
    requires corner { spacing.corner ≤ spacing.rule }
    requires first { IsPoint from }
    requires second { IsPoint to }
    requires parts { AreParts parts.now }
    requires items { AreItemsOf parts.now tree.now }
    ensures { IsTrue result ↔ IsNearLine spacing parts.now piece next from to }
{
    if !is_of_piece(parts, tree, from, piece) {
        return false;
    }
    if !is_of_piece(parts, tree, to, next) {
        return false;
    }
    are_near(from, to, spacing)
}

/// Whether a piece is one of the layer's, with its key.
fn is_keyed(pieces: &Pieces, piece: u64, key: Pt) -> bool
    ensures { IsTrue result ↔ IsKeyed pieces.now piece key }
{
    if piece >= pieces.parts().items().len() as u64 {
        return false;
    }
    let found = pieces.key(piece as usize);
    found.x == key.x && found.y == key.y
}

/// Whether what stands at the place is one of the layer's pieces, with its key, or an anchor, where marks are asked for.
fn is_named(cut: &LayerCut, marks: &Option<MarkTrees>, place: &PlaceLine) -> bool
    ensures { IsTrue result ↔ IsNamed (marks_of marks.now) (bare cut.now.pieces) place.now }
{
    match place {
        PlaceLine::Piece { piece, key } => is_keyed(&cut.pieces, *piece, *key),
        PlaceLine::Anchor { .. } => has_anchors(marks),
    }
}

/// Whether the line shows that two pieces conflict.
fn shows_conflict(
    cut: &LayerCut,
    tree: &Tree,
    piece: u64,
    next: u64,
    line: &NearLine,
    spacing: Spacing,
) -> bool
    requires corner { spacing.corner ≤ spacing.rule }
    requires line { IsNear line.now }
    requires items { AreItemsOf cut.now.pieces.parts tree.now }
    ensures { IsTrue result ↔ ShowsConflict spacing (bare cut.now.pieces) piece next line.now }
{
    let NearLine::Pair { from, to } = line else {
        return false;
    };
    let parts = cut.pieces.parts().items();
    let owner = cut.pieces.owner();
    if !is_near_line(parts, tree, *from, *to, piece, next, spacing) {
        return false;
    }
    owner[piece as usize] != owner[next as usize]
}

/// Whether the line shows that a piece is joined to an anchor, which is mask B's or A's.
fn shows_mark(
    cut: &LayerCut,
    tree: &Tree,
    marks: &Option<MarkTrees>,
    piece: u64,
    b: bool,
    line: &NearLine,
) -> bool
    requires line { IsNear line.now }
    requires items { AreItemsOf cut.now.pieces.parts tree.now }
    ensures { IsTrue result ↔ ShowsMark (marks_of marks.now) (bare cut.now.pieces) piece b line.now }
{
    let NearLine::Mark { at } = line else {
        return false;
    };
    let parts = cut.pieces.parts().items();
    if !is_of_piece(parts, tree, *at, piece) {
        return false;
    }
    is_marked_against(marks, b, *at)
}

/// Whether the line is that of two anchors.
fn shows_anchors(line: &NearLine) -> bool
    ensures { IsTrue result ↔ ShowsAnchors line.now }
{
    match line {
        NearLine::Pair { .. } => false,
        NearLine::Mark { .. } => false,
        NearLine::Anchors => true,
    }
}

/// Whether the line shows that two places are joined.
fn are_joined(
    cut: &LayerCut,
    tree: &Tree,
    marks: &Option<MarkTrees>,
    place: &PlaceLine,
    next: &PlaceLine,
    line: &NearLine,
    spacing: Spacing,
) -> bool
    requires corner { spacing.corner ≤ spacing.rule }
    requires line { IsNear line.now }
    requires items { AreItemsOf cut.now.pieces.parts tree.now }
    ensures { IsTrue result ↔ AreJoined (marks_of marks.now) spacing (bare cut.now.pieces) place.now next.now line.now }
{
    match place {
        PlaceLine::Piece { piece, .. } => match next {
            PlaceLine::Piece { piece: other, .. } => {
                shows_conflict(cut, tree, *piece, *other, line, spacing)
            }
            PlaceLine::Anchor { b } => shows_mark(cut, tree, marks, *piece, *b, line),
        },
        PlaceLine::Anchor { b } => match next {
            PlaceLine::Piece { piece, .. } => shows_mark(cut, tree, marks, *piece, *b, line),
            PlaceLine::Anchor { .. } => shows_anchors(line),
        },
    }
}

/// The first place that isn't named, stood before, or isn't joined to the next one, the first one after the last.
fn first_wrong(
    cut: &LayerCut,
    tree: &Tree,
    marks: &Option<MarkTrees>,
    cycle: &[PlaceLine],
    near: &[NearLine],
    mut stood: Stood,
    spacing: Spacing,
) -> Option<u64>
    requires corner { spacing.corner ≤ spacing.rule }
    requires each { length near.now ≡ length cycle.now }
    requires lines { All IsNear near.now }
    requires items { AreItemsOf cut.now.pieces.parts tree.now }
    requires stood { AreNoted (length cut.now.pieces.parts) cycle.now 0 stood }
    ensures { IsFirstBadOf (IsBadPlace (marks_of marks.now) spacing (bare cut.now.pieces) cycle.now near.now) cycle.now result }
{
    for k in 0..cycle.len() {
        let place = &cycle[k];
        let next = &cycle[(k + 1) % cycle.len()];
        if !is_named(cut, marks, place) {
            return Some(k as u64);
        }
        if stood.has(place) {
            return Some(k as u64);
        }
        if !are_joined(cut, tree, marks, place, next, &near[k], spacing) {
            return Some(k as u64);
        }
        stood.add(place);
    }
    None
}

/// The first place of a cycle that isn't a piece of the layer, or an anchor where marks are asked for, stood before, or isn't joined to the next one by its near line. Marks are squares of `mark_a` and `mark_b`.
pub(crate) fn bad_place(
    alloc: Global,
    cut: &LayerCut,
    cycle: &[PlaceLine],
    near: &[NearLine],
    spacing: Spacing,
    mark_a: &Slabs,
    mark_b: &Slabs,
    marks: bool,
) -> Result<Option<u64>, AllocError>
    requires corner { spacing.corner ≤ spacing.rule }
    requires each { length near.now ≡ length cycle.now }
    requires lines { All IsNear near.now }
    ensures { IfOk result (λ found. (features : List (List Rect)) → IsFirstBadOf (IsBadPlace (asked marks mark_a.now mark_b.now) spacing (cut_view features cut.now.pieces) cycle.now near.now) cycle.now found) }
{
    let parts = cut.pieces.parts().items();
    let stood = Stood::none(alloc, parts.len())?;
    let tree = Tree::of_parts(alloc, parts)?;
    let trees = mark_trees(alloc, mark_a, mark_b, marks)?;
    Ok(first_wrong(cut, &tree, &trees, cycle, near, stood, spacing))
}
