//! Many layers of one file on the way to their decisions.
ghost use Rattle.std.specs.Prelude.{◌≤◌, ◌++◌, ◌∷◌, [], IfOk, List, None, OnOk, length, option_map};
ghost use Rattle.std.specs.List.{AllZip};
ghost use Rattle.dpl_spec_split.specs.Squares.{Covers};
ghost use Rattle.dpl_cert.specs.Grammar.{IsRule};
ghost use Rattle.dpl_cut.specs.Cutting.{HasPointKeys, IsBareCutOf};
ghost use Rattle.dpl_layer.specs.Reading.{limit};
ghost use Rattle.dpl_layer.specs.declared.many.ReadLayer.{ReadLayer as ReadLayerOf};
ghost use Rattle.dpl_answer.specs.Flat.{AreWorkers, IsTile};
ghost use Rattle.dpl_answer.specs.Many.{AreConflictsOfCut};
ghost use Rattle.dpl_decide.specs.Many.{AreDecisions, IsChosen};
ghost use Rattle.dpl_decide.specs.Waits.{AreDecidedFrom, AreWaiting};

use crate::pipeline::Decision;
use dpl_answer::{Conflicts, Sharing, answer_of, conflicts_of_all};
use dpl_base::Spacing;
use dpl_cert::Name;
use dpl_cut::BareLayerCut;
use dpl_layer::{Layer, LayerChoice, ReadLayer, layers_of};
use dpl_pool::Gate;
use dpl_slabs::Slabs;
use dpl_wide::cut_by;
use std::alloc::{AllocError, Global};
use std::sync::Wait;
use std::thread::Threads;

/// What is asked of many layers of a layout, without markers.
#[derive(Clone, Copy, Debug)]
pub struct LayersOrder<'a> {
    /// The name of the top structure, where one is named.
    pub top: Option<&'a str>,
    /// The datatype of the boundaries and paths, and the box type of the boxes, that are taken.
    pub datatype: u16,
    /// The layers that are decomposed.
    pub layers: &'a [u16],
    /// How far apart features are on one mask, in database units.
    pub spacing: Spacing,
    /// How long a stitch is, in database units.
    pub overlap: u32,
    /// How the work is shared.
    pub sharing: Sharing,
}

/// A layer on the way to its decision: refused, or cut, with the copied records. The cut stands in a list of its own.
#[derive(Drop)]
enum Waiting {
    Refused { name: Name, at: u64 },
    Cut { copied: Vec<u8> },
}

/// Decides each layer of a file by its bytes, as `decide` decides one. The file is read once, and one pool has the tiles of all layers that have some, so the cuts of all layers live at once, while the slabs of a layer go when it is cut, and a cut when it is answered.
///
/// The error: out of memory.
pub fn decide_all<R: Threads + Wait + Sync, G: Gate + Sync>(
    rt: &R,
    alloc: Global,
    order: &LayersOrder<'_>,
    bytes: Vec<u8>,
    gate: &G,
) -> Result<Vec<Decision>, AllocError>
    requires size { length bytes.items ≤ limit }
    requires rule { IsRule order.now.spacing.rule }
    requires corner { order.now.spacing.corner ≤ order.now.spacing.rule }
    requires some { 1 ≤ order.now.spacing.corner }
    requires overlap { IsRule order.now.overlap }
    requires tile { IsTile order.now.sharing.tile }
    requires workers { AreWorkers order.now.sharing.workers }
    ensures { IfOk result (λ ds. AreDecisions (option_map (λ t. t.now) order.now.top) order.now.datatype order.now.layers.now order.now.spacing order.now.overlap bytes.items ds.items) }
{
    let choices = choices_of(alloc, order)?;
    let layers = layers_of(alloc, &choices, bytes)?;
    all_decided(
        rt,
        alloc,
        layers,
        order.spacing,
        order.overlap,
        order.sharing,
        gate,
    )
}

/// Decides each layer by what was read of it.
fn all_decided<R: Threads + Wait + Sync, G: Gate + Sync>(
    rt: &R,
    alloc: Global,
    layers: Vec<ReadLayer>,
    spacing: Spacing,
    overlap: u32,
    sharing: Sharing,
    gate: &G,
) -> Result<Vec<Decision>, AllocError>
    requires rule { IsRule spacing.rule }
    requires corner { spacing.corner ≤ spacing.rule }
    requires some { 1 ≤ spacing.corner }
    requires overlap { IsRule overlap }
    requires tile { IsTile sharing.tile }
    requires workers { AreWorkers sharing.workers }
    ensures { IfOk result (λ ds. AreDecidedFrom spacing overlap layers.items ds.items) }
{
    let workers = sharing.workers;
    let (waiting, cuts) = all_cut(rt, alloc, layers, spacing, overlap, workers)?;
    let conflicts = conflicts_of_all(rt, alloc, &cuts, spacing, sharing, gate)?;
    all_answered(
        rt, alloc, waiting, cuts, conflicts, spacing, overlap, workers,
    )
}

/// The choice of each layer.
fn choices_of<'a>(
    alloc: Global,
    order: &LayersOrder<'a>,
) -> Result<Vec<LayerChoice<'a>>, AllocError>
    ensures { IfOk result (λ cs. AllZip (IsChosen (option_map (λ t. t.now) order.now.top) order.now.datatype) order.now.layers.now cs.items) }
{
    let mut choices = Vec::new(alloc);
    for layer in order.layers {
        choices.push(LayerChoice {
            top: order.top,
            layer: *layer,
            datatype: order.datatype,
        })?;
    }
    Ok(choices)
}

/// Cuts a layer without markers.
fn cut_unmarked<R: Threads + Sync>(
    rt: &R,
    alloc: Global,
    slabs: Slabs,
    spacing: Spacing,
    overlap: u32,
    workers: u32,
) -> Result<BareLayerCut, AllocError>
    requires corner { spacing.corner ≤ spacing.rule }
    requires overlap { 1 ≤ overlap }
    ensures cut { IfOk result (IsBareCutOf None spacing overlap (Covers slabs)) }
    ensures keys { IfOk result HasPointKeys }
{
    let unmarked = Slabs::empty(alloc);
    cut_by(rt, alloc, slabs, spacing, overlap, &unmarked, workers)
}

/// Adds a layer to those that wait, and where it has no fault its cut to the cuts.
fn add_waiting<R: Threads + Sync>(
    rt: &R,
    alloc: Global,
    waiting: &mut Vec<Waiting>,
    cuts: &mut Vec<BareLayerCut>,
    layer: ReadLayer,
    spacing: Spacing,
    overlap: u32,
    workers: u32,
) -> Result<(), AllocError>
    requires corner { spacing.corner ≤ spacing.rule }
    requires overlap { 1 ≤ overlap }
    ensures { OnOk result ((layers : List ReadLayerOf) → AreWaiting spacing overlap layers waiting.old.items cuts.old.items → AreWaiting spacing overlap (layers ++ layer ∷ []) waiting.new.items cuts.new.items) }
{
    match layer {
        ReadLayer::Refused { name, at } => waiting.push(Waiting::Refused { name, at })?,
        ReadLayer::Read(Layer { copied, slabs }) => {
            cuts.push(cut_unmarked(rt, alloc, slabs, spacing, overlap, workers)?)?;
            waiting.push(Waiting::Cut { copied })?;
        }
    }
    Ok(())
}

/// Cuts each layer that has no fault.
fn all_cut<R: Threads + Sync>(
    rt: &R,
    alloc: Global,
    layers: Vec<ReadLayer>,
    spacing: Spacing,
    overlap: u32,
    workers: u32,
) -> Result<(Vec<Waiting>, Vec<BareLayerCut>), AllocError>
    requires corner { spacing.corner ≤ spacing.rule }
    requires overlap { IsRule overlap }
    ensures { IfOk result (λ r. AreWaiting spacing overlap layers.items r.0.items r.1.items) }
{
    let mut waiting = Vec::new(alloc);
    let mut cuts = Vec::new(alloc);
    for layer in layers {
        add_waiting(
            rt,
            alloc,
            &mut waiting,
            &mut cuts,
            layer,
            spacing,
            overlap,
            workers,
        )?;
    }
    Ok((waiting, cuts))
}

/// Answers each layer that was cut, by its conflicts.
fn all_answered<R: Threads>(
    rt: &R,
    alloc: Global,
    waiting: Vec<Waiting>,
    cuts: Vec<BareLayerCut>,
    conflicts: Vec<Conflicts>,
    spacing: Spacing,
    overlap: u32,
    workers: u32,
) -> Result<Vec<Decision>, AllocError>
    requires corner { spacing.corner ≤ spacing.rule }
    requires some { 1 ≤ spacing.corner }
    requires rule { IsRule spacing.rule }
    requires overlap { IsRule overlap }
    requires waiting { (layers : List ReadLayerOf) × AreWaiting spacing overlap layers waiting.items cuts.items }
    requires conflicts { AllZip (AreConflictsOfCut spacing) cuts.items conflicts.items }
    ensures { (layers : List ReadLayerOf) → AreWaiting spacing overlap layers waiting.items cuts.items → IfOk result (λ ds. AreDecidedFrom spacing overlap layers ds.items) }
{
    let mut decisions = Vec::new(alloc);
    let mut cuts = cuts.into_iter();
    let mut conflicts = conflicts.into_iter();
    for layer in waiting {
        match layer {
            Waiting::Refused { name, at } => decisions.push(Decision::Refused { name, at })?,
            Waiting::Cut { copied } => {
                let Some(cut) = cuts.next() else {
                    unreachable!()
                };
                let Some(found) = conflicts.next() else {
                    unreachable!()
                };
                let answer = answer_of(
                    rt, alloc, cut, &found, None, spacing, overlap, false, workers,
                )?;
                drop(found);
                decisions.push(Decision::Answered { copied, answer })?;
            }
        }
    }
    Ok(decisions)
}
