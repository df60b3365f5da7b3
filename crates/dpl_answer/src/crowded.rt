//! The reported cycle of a crowded layer, without a list of its conflicts.
ghost use Rattle.std.specs.Prelude.{◌≤◌, Bool, IfOk, IfSome};
ghost use Rattle.std.specs.Option.{option_copied};
ghost use Rattle.dpl_spec_split.specs.Cycle.{IsReported};
ghost use Rattle.dpl_spec_split.specs.Graphs.{IsOddCycle};
ghost use Rattle.dpl_spec_split.specs.Marks.{graph};
ghost use Rattle.dpl_cert.specs.Grammar.{IsRule};
ghost use Rattle.dpl_cut.specs.Cutting.{HasPointKeys, OfCompleted};
ghost use Rattle.dpl_answer.specs.Anchors.{marks_in};
ghost use Rattle.dpl_answer.specs.Flat.{Fits, IsFlatCut, IsWithin};
ghost use Rattle.dpl_answer.specs.View.{flat_view};

use crate::answer::clash_by;
use crate::decomposed::Decomposed;
use crate::marks::MarkSets;
use dpl_base::{Id, Spacing};
use dpl_crowd::{Crowd, are_many};
use dpl_cut::BareLayerCut;
use std::alloc::{AllocError, Global};

/// The cycle that is reported of a cut layer, where it is without marks, a square with sides of the rule has many features on average, and the cycle is of the component of the first piece. None says nothing.
///
/// The error: out of memory.
pub fn crowded_cycle(
    alloc: Global,
    cut: &BareLayerCut,
    marks: Option<&MarkSets>,
    spacing: Spacing,
) -> Result<Option<Vec<Id>>, AllocError>
    requires corner { spacing.corner ≤ spacing.rule }
    ensures reported { IfOk result (λ found. IfSome found (λ cycle. IsReported (graph (marks_in (option_copied marks.entry)) spacing cut.now.pieces.parts cut.now.pieces.owners) cycle.items)) }
    ensures odd { IfOk result (λ found. IfSome found (λ cycle. IsOddCycle (graph (marks_in (option_copied marks.entry)) spacing cut.now.pieces.parts cut.now.pieces.owners) cycle.items)) }
{
    let None = marks else {
        return Ok(None);
    };
    let pieces = &cut.pieces;
    if !are_many(pieces.parts().items(), spacing.rule, cut.features) {
        return Ok(None);
    }
    let crowd = Crowd::of(alloc, pieces.parts(), pieces.owner(), spacing)?;
    crowd.first_cycle(alloc)
}

/// The answer to a cut layer whose reported cycle is known. `spacing` is how far apart features are on one mask, `overlap` how long a stitch is, in database units.
///
/// The error: out of memory.
pub fn answer_of_cycle(
    alloc: Global,
    cut: BareLayerCut,
    cycle: &[Id],
    marks: Option<&MarkSets>,
    spacing: Spacing,
    overlap: u32,
) -> Result<Decomposed, AllocError>
    requires corner { spacing.corner ≤ spacing.rule }
    requires rule { IsRule spacing.rule }
    requires overlap { IsRule overlap }
    requires keys { HasPointKeys cut }
    requires reported { IsReported (graph (marks_in (option_copied marks)) spacing cut.pieces.parts cut.pieces.owners) cycle.now }
    requires odd { IsOddCycle (graph (marks_in (option_copied marks)) spacing cut.pieces.parts cut.pieces.owners) cycle.now }
    ensures flat { IfOk result (λ d. (fewer : Bool) → OfCompleted cut (λ c. IsFlatCut fewer (marks_in (option_copied marks.entry)) spacing overlap c (flat_view d))) }
    ensures within { IfOk result (λ d. IsWithin (flat_view d)) }
    // No certificate has a corner rule of 0.
    ensures fits { 1 ≤ spacing.corner → IfOk result (λ d. Fits (flat_view d)) }
{
    let cut = cut.completed(alloc)?;
    let clash = clash_by(alloc, &cut, cycle, marks, spacing, overlap)?;
    Ok(Decomposed::Cycle(clash))
}
