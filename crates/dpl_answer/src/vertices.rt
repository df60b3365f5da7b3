//! Vertices of the graph with anchors, and the lines of a cycle of it.
ghost use Rattle.std.specs.Prelude.{◌≡◌, ◌<◌, ◌≤◌, ◌%◌, ◌+◌, ℕ, Some, IfOk, length, map, slice_index};
ghost use Rattle.std.specs.List.{AllByRecursion, Contains};
ghost use Rattle.dpl_spec_split.specs.declared.Pt.{Pt};
ghost use Rattle.dpl_spec_split.specs.Marks.{HasSome};
ghost use Rattle.dpl_spec_split.specs.Squares.{Covers, IsLeast};
ghost use Rattle.dpl_cert.specs.Grammar.{IsNear, IsPlace, IsPoint};
ghost use Rattle.dpl_answer.specs.Anchors.{AreLinked, AreLinksOf, IsKnown, ShowsLink, ShowsSquare, marks_of, place_of, set_against, vertex_of};

use crate::marks::MarkSets;
use crate::near::near_line;
use dpl_base::{Id, Spacing};
use dpl_cert::{NearLine, PlaceLine};
use dpl_piece::Pieces;
use dpl_slabs::Slabs;
use std::alloc::{AllocError, Global};

/// A vertex of the graph with anchors.
#[derive(Clone, Copy, Drop)]
pub(crate) enum Vertex {
    /// The anchor of mask B, or that of mask A.
    Anchor { b: bool },
    /// A piece, by its number.
    Piece(Id),
}

impl Vertex {
    ghost use Rattle.dpl_answer.specs.Anchors.{vertex_of};

    /// The vertex of a number: 0 is the anchor of mask A, 1 that of mask B, and `k + 2` is piece `k`.
    fn of(number: Id) -> Vertex
        ensures { result ≡ vertex_of number }
    {
        match number {
            0 => Vertex::Anchor { b: false },
            1 => Vertex::Anchor { b: true },
            _ => Vertex::Piece(number - 2),
        }
    }
}

/// The place of a vertex in a cycle.
fn vertex_line(pieces: &Pieces, vertex: Vertex) -> PlaceLine
    requires within { (p : Pt) → Contains pieces.now.keys p → IsPoint p }
    requires known { IsKnown (length pieces.now.parts) vertex }
    ensures line { result ≡ place_of pieces.now.keys vertex }
    ensures within { IsPlace result }
{
    match vertex {
        Vertex::Anchor { b } => PlaceLine::Anchor { b },
        Vertex::Piece(piece) => {
            PlaceLine::Piece {
                piece,
                key: pieces.key(piece as usize),
            }
        }
    }
}

/// A line for each vertex of a cycle of the graph with anchors.
pub(crate) fn vertex_lines(
    alloc: Global,
    pieces: &Pieces,
    cycle: &[Id],
) -> Result<Vec<PlaceLine>, AllocError>
    requires within { (p : Pt) → Contains pieces.now.keys p → IsPoint p }
    requires known { (k : ℕ) → Contains cycle.now k → IsKnown (length pieces.now.parts) (vertex_of k) }
    ensures lines { IfOk result (λ v. v.items ≡ map (λ k. place_of pieces.now.keys (vertex_of k)) cycle.now) }
    ensures within { IfOk result (λ v. AllByRecursion IsPlace v.items) }
{
    let mut lines = Vec::new(alloc);
    for number in cycle {
        lines.push(vertex_line(pieces, Vertex::of(*number)))?;
    }
    Ok(lines)
}

/// The least square of the piece that is in the set.
fn mark_line(alloc: Global, piece: &Slabs, set: &Slabs) -> Result<NearLine, AllocError>
    requires { HasSome (Covers piece.now) (Covers set.now) }
    ensures least { IfOk result (ShowsSquare (IsLeast (λ p. Covers piece.now p × Covers set.now p))) }
    ensures within { IfOk result (λ line. IsNear line) }
{
    let common = piece.meet(alloc, set)?;
    let Some(at) = common.least() else {
        unreachable!()
    };
    Ok(NearLine::Mark { at })
}

/// The squares that join a piece to the anchor of mask B, or to that of mask A: those that are fixed to the other mask.
fn against(marks: &MarkSets, b: bool) -> &Slabs
    ensures { result.now ≡ set_against (marks_of marks.now) b }
{
    if b { &marks.a } else { &marks.b }
}

/// How two joined vertices of the graph with anchors are joined.
fn link_line(
    alloc: Global,
    parts: &[Slabs],
    from: Vertex,
    to: Vertex,
    spacing: Spacing,
    marks: &MarkSets,
) -> Result<NearLine, AllocError>
    requires corner { spacing.corner ≤ spacing.rule }
    requires linked { AreLinked (marks_of marks.now) spacing parts.now from to }
    ensures link { IfOk result (ShowsLink (marks_of marks.now) spacing parts.now from to) }
    ensures within { IfOk result (λ line. IsNear line) }
{
    match (from, to) {
        (Vertex::Piece(i), Vertex::Piece(j)) => {
            near_line(alloc, parts, i as usize, j as usize, spacing)
        }
        (Vertex::Piece(piece), Vertex::Anchor { b }) => {
            mark_line(alloc, &parts[piece as usize], against(marks, b))
        }
        (Vertex::Anchor { b }, Vertex::Piece(piece)) => {
            mark_line(alloc, &parts[piece as usize], against(marks, b))
        }
        (Vertex::Anchor { b: _ }, Vertex::Anchor { b: _ }) => Ok(NearLine::Anchors),
    }
}

/// For each vertex of a cycle of the graph with anchors how it is joined to the next one, the last to the first.
pub(crate) fn link_lines(
    alloc: Global,
    pieces: &Pieces,
    cycle: &[Id],
    spacing: Spacing,
    marks: &MarkSets,
) -> Result<Vec<NearLine>, AllocError>
    requires corner { spacing.corner ≤ spacing.rule }
    requires linked { (k : ℕ) → k < length cycle.now → AreLinked (marks_of marks.now) spacing pieces.now.parts (vertex_of (slice_index cycle.now k)) (vertex_of (slice_index cycle.now ((k + 1) % length cycle.now))) }
    ensures links { IfOk result (λ v. AreLinksOf (marks_of marks.now) spacing pieces.now.parts cycle.now v.items) }
    ensures within { IfOk result (λ v. AllByRecursion IsNear v.items) }
{
    let parts = pieces.parts().items();
    let mut lines = Vec::new(alloc);
    for k in 0..cycle.len() {
        let from = Vertex::of(cycle[k]);
        let to = Vertex::of(cycle[(k + 1) % cycle.len()]);
        let line = link_line(alloc, parts, from, to, spacing, marks)?;
        lines.push(line)?;
    }
    Ok(lines)
}
