//! The answer to the conflicts of a layer: its masks, or the reported cycle.
ghost use Rattle.std.specs.Prelude.{◌≤◌, IfOk, length};
ghost use Rattle.std.specs.List.{Contains};
ghost use Rattle.dpl_spec_split.specs.declared.Pt.{Pt};
ghost use Rattle.dpl_spec_split.specs.Cycle.{IsReported};
ghost use Rattle.dpl_spec_split.specs.Graphs.{AreEdges, IsOddCycle, graph_of};
ghost use Rattle.dpl_spec_split.specs.Summary.{HasOddCycle};
ghost use Rattle.std.specs.Option.{option_copied};
ghost use Rattle.dpl_spec_split.specs.Marks.{graph, vertex};
ghost use Rattle.dpl_answer.specs.Anchors.{marks_in};
ghost use Rattle.dpl_stars.specs.Levels.{AreEdgesBelow};
ghost use Rattle.dpl_orient.specs.Oriented.{IsEvenBelow};
ghost use Rattle.dpl_cert.specs.Grammar.{IsPoint, IsRule};
ghost use Rattle.dpl_answer.specs.Conflicts.{SumsGraph};
ghost use Rattle.dpl_answer.specs.Flat.{ArePaintedWithin, Fits, FitsClash, FitsPainted, IsClashOfCut, IsFlatCut, IsPaintedCut, IsWithin};
ghost use Rattle.dpl_cut.specs.Cutting.{HasPointKeys, OfAnyCut, OfCompleted};
ghost use Rattle.dpl_answer.specs.View.{AreConflictsOf, clash_view, flat_view, painted_view};

use crate::colours::vertex_count;
use crate::conflicts::Conflicts;
use crate::cycle::cycle_lines;
use crate::decomposed::{Clash, Decomposed, Painted};
use crate::lines::head;
use crate::marks::MarkSets;
use crate::masks_told::masks_told;
use dpl_base::{Edge, Id, Listed, Spacing};
use dpl_cut::{BareLayerCut, LayerCut};
use dpl_masks::masks_by;
use dpl_odd::odd_cycle;
use dpl_stars::Joined;
use std::alloc::{AllocError, Global};
use std::thread::Threads;

/// The masks of a cut layer whose conflict graph has no odd cycle, or the cycle that is reported of one: `spacing` is how far apart features are on one mask, `overlap` how long a stitch is, in database units. The conflicts are those with the same `marks`, if any are given; a cycle may then have anchors. With `fewer` single components are flipped again and again, as long as that leaves fewer stitches, and the masks come with the gains that are left. With two workers or more the two masks are made side by side.
///
/// The error: out of memory.
pub fn answer_of<R: Threads>(
    rt: &R,
    alloc: Global,
    cut: BareLayerCut,
    conflicts: &Conflicts,
    marks: Option<&MarkSets>,
    spacing: Spacing,
    overlap: u32,
    fewer: bool,
    workers: u32,
) -> Result<Decomposed, AllocError>
    requires corner { spacing.corner ≤ spacing.rule }
    requires rule { IsRule spacing.rule }
    requires overlap { IsRule overlap }
    requires keys { HasPointKeys cut }
    requires conflicts { AreConflictsOf (marks_in (option_copied marks)) spacing cut.pieces.parts cut.pieces.owners conflicts.now }
    ensures flat { IfOk result (λ d. OfCompleted cut (λ c. IsFlatCut fewer (marks_in (option_copied marks.entry)) spacing overlap c (flat_view d))) }
    ensures within { IfOk result (λ d. IsWithin (flat_view d)) }
    // No certificate has a corner rule of 0.
    ensures fits { 1 ≤ spacing.corner → IfOk result (λ d. Fits (flat_view d)) }
{
    let cut = cut.completed(alloc)?;
    match conflicts {
        Conflicts::Even(joined) => {
            let painted = paint(
                rt, alloc, cut, joined, marks, spacing, overlap, fewer, workers,
            )?;
            Ok(Decomposed::Masks(painted))
        }
        Conflicts::Odd(edges) => {
            let clash = clash(alloc, &cut, edges.as_slice(), marks, spacing, overlap)?;
            Ok(Decomposed::Cycle(clash))
        }
    }
}

/// The masks of a cut layer whose conflicts `joined` sums up.
fn paint<R: Threads>(
    rt: &R,
    alloc: Global,
    cut: LayerCut,
    joined: &Joined,
    marks: Option<&MarkSets>,
    spacing: Spacing,
    overlap: u32,
    fewer: bool,
    workers: u32,
) -> Result<Painted, AllocError>
    requires corner { spacing.corner ≤ spacing.rule }
    requires rule { IsRule spacing.rule }
    requires overlap { IsRule overlap }
    requires keys { (p : Pt) → Contains cut.pieces.keys p → IsPoint p }
    requires sums { SumsGraph (graph (marks_in (option_copied marks)) spacing cut.pieces.parts cut.pieces.owners) joined.now }
    requires even { IsEvenBelow (vertex (marks_in (option_copied marks)) (length cut.pieces.parts)) joined.now }
    ensures painted { IfOk result (λ p. OfAnyCut cut (λ c. IsPaintedCut fewer (marks_in (option_copied marks.entry)) spacing overlap c (painted_view p))) }
    ensures within { IfOk result (λ p. ArePaintedWithin (painted_view p)) }
    // No certificate has a corner rule of 0.
    ensures fits { 1 ≤ spacing.corner → IfOk result (λ p. FitsPainted (painted_view p)) }
{
    let head = head(&cut, spacing, overlap);
    let LayerCut { pieces, .. } = cut;
    let told = masks_told(alloc, &pieces, joined, marks, spacing, fewer)?;
    let masks = masks_by(rt, alloc, pieces, &told.colours, workers)?;
    Ok(Painted {
        a: masks.a,
        b: masks.b,
        head,
        pieces: told.lines.pieces,
        stitches: told.lines.stitches,
        gains: told.gains,
    })
}

/// The reported cycle of a cut layer whose conflicts these edges are.
fn clash(
    alloc: Global,
    cut: &LayerCut,
    edges: &[Edge],
    marks: Option<&MarkSets>,
    spacing: Spacing,
    overlap: u32,
) -> Result<Clash, AllocError>
    requires corner { spacing.corner ≤ spacing.rule }
    requires rule { IsRule spacing.rule }
    requires overlap { IsRule overlap }
    requires keys { (p : Pt) → Contains cut.now.pieces.keys p → IsPoint p }
    requires edges { AreEdges (graph (marks_in (option_copied marks)) spacing cut.now.pieces.parts cut.now.pieces.owners) edges.now }
    requires below { AreEdgesBelow (vertex (marks_in (option_copied marks)) (length cut.now.pieces.parts)) edges.now }
    requires odd { HasOddCycle (graph_of edges.now) }
    ensures clash { IfOk result (λ x. OfAnyCut cut.now (λ c. IsClashOfCut (marks_in (option_copied marks.entry)) spacing overlap c (clash_view x))) }
    // No certificate has a corner rule of 0.
    ensures fits { 1 ≤ spacing.corner → IfOk result (λ x. FitsClash (clash_view x)) }
{
    let count = cut.pieces.parts().items().len() as u64;
    let count = vertex_count(count, marks)?;
    let Some(cycle) = odd_cycle(alloc, count, edges)? else {
        unreachable!()
    };
    clash_by(alloc, cut, &cycle, marks, spacing, overlap)
}

/// The reported cycle of a cut layer, with its lines.
pub(crate) fn clash_by(
    alloc: Global,
    cut: &LayerCut,
    cycle: &[Id],
    marks: Option<&MarkSets>,
    spacing: Spacing,
    overlap: u32,
) -> Result<Clash, AllocError>
    requires corner { spacing.corner ≤ spacing.rule }
    requires rule { IsRule spacing.rule }
    requires overlap { IsRule overlap }
    requires keys { (p : Pt) → Contains cut.now.pieces.keys p → IsPoint p }
    requires reported { IsReported (graph (marks_in (option_copied marks)) spacing cut.now.pieces.parts cut.now.pieces.owners) cycle.now }
    requires odd { IsOddCycle (graph (marks_in (option_copied marks)) spacing cut.now.pieces.parts cut.now.pieces.owners) cycle.now }
    ensures clash { IfOk result (λ x. OfAnyCut cut.now (λ c. IsClashOfCut (marks_in (option_copied marks.entry)) spacing overlap c (clash_view x))) }
    // No certificate has a corner rule of 0.
    ensures fits { 1 ≤ spacing.corner → IfOk result (λ x. FitsClash (clash_view x)) }
{
    let lines = cycle_lines(alloc, &cut.pieces, cycle, spacing, marks)?;
    Ok(Clash {
        head: head(cut, spacing, overlap),
        cycle: Listed::of(lines.places),
        near: Listed::of(lines.near),
    })
}
