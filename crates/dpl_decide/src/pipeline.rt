//! From the bytes of a file to its layer, the cut of the layer, the conflicts of the cut, and their answer.
ghost use Rattle.std.specs.Prelude.{◌≤◌, IfOk, length};
ghost use Rattle.std.specs.Option.{option_copied};
ghost use Rattle.dpl_cert.specs.Grammar.{IsRule};
ghost use Rattle.dpl_layer.specs.Reading.{limit};
ghost use Rattle.dpl_layer.specs.View.{marked_choice_view};
ghost use Rattle.dpl_answer.specs.Anchors.{marks_in};
ghost use Rattle.dpl_answer.specs.Flat.{AreWorkers, Fits, IsFlat, IsTile};
ghost use Rattle.dpl_answer.specs.View.{flat_view};
ghost use Rattle.dpl_decide.specs.Deciding.{IsDecision};
ghost use Rattle.dpl_decide.specs.View.{FitsDecision, decision_view};

use crate::marks::{marked_squares, marks_by};
use dpl_answer::{
    Decomposed, MarkSets, Sharing, answer_of, answer_of_cycle, conflicts_of, crowded_cycle,
};
use dpl_base::Spacing;
use dpl_cert::Name;
use dpl_layer::{LayerFault, MarkedChoice, MarkedLayer, marked_layer_by};
use dpl_pool::Gate;
use dpl_slabs::Slabs;
use dpl_wide::cut_by;
use std::alloc::{AllocError, Global};
use std::sync::Wait;
use std::thread::Threads;

/// What is asked of a layout.
#[derive(Clone, Copy, Debug)]
pub struct Order<'a> {
    /// The layer that is decomposed, and its markers.
    pub choice: MarkedChoice<'a>,
    /// How it is decomposed.
    pub recipe: Recipe,
}

/// How a layer is decomposed.
#[derive(Clone, Copy, Debug)]
pub struct Recipe {
    /// How far apart features are on one mask, in database units.
    pub spacing: Spacing,
    /// How long a stitch is, in database units.
    pub overlap: u32,
    /// Whether single components are flipped as long as that leaves fewer stitches.
    pub fewer: bool,
    /// How the work is shared.
    pub sharing: Sharing,
}

/// How a file is decided.
#[derive(Drop)]
pub enum Decision {
    /// The first fault of the layout, and where it stands.
    Refused { name: Name, at: u64 },
    /// The records before the elements of the top structure, and the answer to the layer.
    Answered { copied: Vec<u8>, answer: Decomposed },
}

/// Decides a file by its bytes: the first fault of the layout, or the answer to the chosen layer, as `order` asks for it.
///
/// The error: out of memory.
pub fn decide<R: Threads + Wait + Sync, G: Gate + Sync>(
    rt: &R,
    alloc: Global,
    order: &Order<'_>,
    bytes: Vec<u8>,
    gate: &G,
) -> Result<Decision, AllocError>
    requires size { length bytes.items ≤ limit }
    requires rule { IsRule order.now.recipe.spacing.rule }
    requires corner { order.now.recipe.spacing.corner ≤ order.now.recipe.spacing.rule }
    requires some { 1 ≤ order.now.recipe.spacing.corner }
    requires overlap { IsRule order.now.recipe.overlap }
    requires tile { IsTile order.now.recipe.sharing.tile }
    requires workers { AreWorkers order.now.recipe.sharing.workers }
    ensures decision { IfOk result (λ d. IsDecision order.now.recipe.fewer (marked_choice_view order.now.choice) order.now.recipe.spacing order.now.recipe.overlap bytes.items (decision_view d)) }
    ensures fits { IfOk result FitsDecision }
{
    let MarkedLayer {
        copied,
        slabs,
        mark_a,
        mark_b,
    } = match marked_layer_by(
        rt,
        alloc,
        &order.choice,
        bytes,
        order.recipe.sharing.workers,
    ) {
        Ok(layer) => layer,
        Err(LayerFault::Refused { name, at }) => return Ok(Decision::Refused { name, at }),
        Err(LayerFault::NoMemory) => return Err(AllocError),
    };
    let sets = MarkSets {
        a: mark_a,
        b: mark_b,
    };
    let marks = marks_by(&order.choice, &sets);
    let answer = decompose(rt, alloc, &order.recipe, slabs, marks, gate)?;
    Ok(Decision::Answered { copied, answer })
}

/// Decomposes a layer, of which the squares of `marks` are fixed to a mask, if any are given: its cut, the conflicts of the cut, and their answer. What a step doesn't need any more is let go before the next.
///
/// The error: out of memory.
pub fn decompose<R: Threads + Wait + Sync, G: Gate + Sync>(
    rt: &R,
    alloc: Global,
    recipe: &Recipe,
    layer: Slabs,
    marks: Option<&MarkSets>,
    gate: &G,
) -> Result<Decomposed, AllocError>
    requires rule { IsRule recipe.now.spacing.rule }
    requires corner { recipe.now.spacing.corner ≤ recipe.now.spacing.rule }
    requires some { 1 ≤ recipe.now.spacing.corner }
    requires overlap { IsRule recipe.now.overlap }
    requires tile { IsTile recipe.now.sharing.tile }
    requires workers { AreWorkers recipe.now.sharing.workers }
    ensures flat { IfOk result (λ d. IsFlat recipe.now.fewer (marks_in (option_copied marks.entry)) recipe.now.spacing recipe.now.overlap layer (flat_view d)) }
    ensures fits { IfOk result (λ d. Fits (flat_view d)) }
{
    let spacing = recipe.spacing;
    let marked = marked_squares(alloc, marks)?;
    let cut = cut_by(
        rt,
        alloc,
        layer,
        spacing,
        recipe.overlap,
        &marked,
        recipe.sharing.workers,
    )?;
    drop(marked);
    let crowded = crowded_cycle(alloc, &cut, marks, spacing)?;
    if let Some(cycle) = crowded {
        return answer_of_cycle(alloc, cut, &cycle, marks, spacing, recipe.overlap);
    }
    let conflicts = conflicts_of(rt, alloc, &cut, marks, spacing, recipe.sharing, gate)?;
    answer_of(
        rt,
        alloc,
        cut,
        &conflicts,
        marks,
        spacing,
        recipe.overlap,
        recipe.fewer,
        recipe.sharing.workers,
    )
}
