//! The conflicts of the pieces of a layer.
ghost use Rattle.std.specs.Prelude.{◌≤◌, ℕ, IfOk, IsTrue, Option};
ghost use Rattle.dpl_spec_split.specs.Graphs.{AreEdges, graph_of};
ghost use Rattle.dpl_spec_split.specs.Summary.{HasOddCycle};
ghost use Rattle.std.specs.Option.{option_copied};
ghost use Rattle.dpl_spec_split.specs.Marks.{Marks, graph};
ghost use Rattle.dpl_stars.specs.Sums.{AreEdgePairs};
ghost use Rattle.dpl_tile.specs.Plans.{IsPlan};
ghost use Rattle.dpl_tile.specs.Tiles.{IsDoubled};
ghost use Rattle.dpl_cert.specs.Grammar.{IsRule};
ghost use Rattle.dpl_answer.specs.Flat.{AreWorkers, IsTile};
ghost use Rattle.dpl_answer.specs.Anchors.{AreMarkEdges, marks_in};
ghost use Rattle.dpl_answer.specs.Conflicts.{SumsGraph};
ghost use Rattle.dpl_answer.specs.View.{AreAmong, AreConflictsOf};

use crate::job::{EdgeJob, joined_conflicts};
use crate::marks::{MarkSets, edges_of_marks, joined_with};
use dpl_base::{Edge, Spacing};
use dpl_crowd::{are_many, slab_count};
use dpl_cut::BareLayerCut;
use dpl_edges::{all_conflicts_by, all_edges};
use dpl_piece::BarePieces;
use dpl_pool::Gate;
use dpl_slabs::Slabs;
use dpl_stars::{Joined, stars};
use dpl_tile::{plan, side_for};
use std::alloc::{AllocError, Global};
use std::sync::Wait;
use std::thread::Threads;

/// Up to how many slabs the pieces of a layer may have for tiles to be shared. Of more, all conflicts are listed at once, which takes less time than to list those of many tiles and to join what was found.
const MOST_BY_TILES: u64 = 4_096;

/// How many of the edges that are listed at once are looked at before all of them are, where there are many.
const FIRST_EDGES: usize = 65_536;

/// Up to how many edges all are summed up without a look at the first ones.
const MOST_AT_ONCE: usize = 524_288;

/// How the work on a layer is shared. Nothing of it shows in the answer.
#[derive(Clone, Copy, Debug)]
pub struct Sharing {
    /// The side of a tile in database units, 1 to 1,073,741,824. It is doubled while there would be too many tiles.
    pub tile: u32,
    /// How many workers share the sweep of the layer, its zones, pieces, near slabs or tiles, and masks, 1 to 64.
    pub workers: u32,
}

/// The conflicts of pieces: the pairs of pieces of different features that are near. Where marks are asked for, they go by vertices, and the edges of anchors are among them.
#[derive(Drop)]
pub enum Conflicts {
    /// The summary of the conflict graph, which has no odd cycle.
    Even(Joined),
    /// All edges of the conflict graph, which has one.
    Odd(Vec<Edge>),
}

/// The conflicts of a cut layer, whose features are to stay `spacing` apart on one mask, in database units. Where `marks` are given, those of its graph with anchors: vertex 0 is the anchor of mask A, 1 that of mask B, and piece `k` is `k + 2`.
///
/// The error: out of memory.
pub fn conflicts_of<R: Threads + Wait + Sync, G: Gate + Sync>(
    rt: &R,
    alloc: Global,
    cut: &BareLayerCut,
    marks: Option<&MarkSets>,
    spacing: Spacing,
    sharing: Sharing,
    gate: &G,
) -> Result<Conflicts, AllocError>
    requires corner { spacing.corner ≤ spacing.rule }
    requires rule { IsRule spacing.rule }
    requires tile { IsTile sharing.tile }
    requires workers { AreWorkers sharing.workers }
    ensures { IfOk result (AreConflictsOf (marks_in (option_copied marks.entry)) spacing cut.now.pieces.parts cut.now.pieces.owners) }
{
    if are_listed_at_once(cut.pieces.parts().items(), spacing.rule, sharing.workers) {
        return listed_conflicts(rt, alloc, &cut.pieces, marks, spacing, sharing.workers);
    }
    let job = tiles_of(alloc, &cut.pieces, marks, spacing, sharing.tile)?;
    let joined = joined_conflicts(rt, alloc, sharing.workers, &job, gate)?;
    conflicts_by(alloc, &job, joined)
}

/// The conflicts of the pieces of a job, by the summary of all its edges.
pub(crate) fn conflicts_by(
    alloc: Global,
    job: &EdgeJob<'_>,
    joined: Joined,
) -> Result<Conflicts, AllocError>
    ensures { (marks : Option Marks) → AreMarkEdges marks job.now.plan.parts job.now.marked
        → SumsGraph (graph marks job.now.plan.spacing job.now.plan.parts job.now.plan.owners) joined
        → IfOk result (AreConflictsOf marks job.now.plan.spacing job.now.plan.parts job.now.plan.owners) }
{
    match &joined {
        Joined::Stars(_) => Ok(Conflicts::Even(joined)),
        Joined::Odd => {
            let edges = all_edges(alloc, job.plan())?;
            let edges = joined_with(alloc, edges, job.marked())?;
            Ok(Conflicts::Odd(edges))
        }
    }
}

/// Whether all conflicts of a layer are listed before they are summed up: those of a large or a dense layer, and those of any layer where there is one worker. A layer is dense where a square with sides of the rule has many slabs, on average over the rectangle round all of them: then several tiles would tell most of their conflicts.
pub(crate) fn are_listed_at_once(parts: &[Slabs], rule: u32, workers: u32) -> bool {
    if workers == 1 {
        return true;
    }
    let count = slab_count(parts, MOST_BY_TILES);
    count > MOST_BY_TILES || are_many(parts, rule, count)
}

/// All edges of the graph of pieces, with anchors where marks are asked for. So many workers find the conflicts.
fn edges_at_once<R: Threads + Sync>(
    rt: &R,
    alloc: Global,
    pieces: &BarePieces,
    marks: Option<&MarkSets>,
    spacing: Spacing,
    workers: u32,
) -> Result<Vec<Edge>, AllocError>
    requires corner { spacing.corner ≤ spacing.rule }
    requires workers { 1 ≤ workers }
    ensures { IfOk result (λ v. AreEdges (graph (marks_in (option_copied marks.entry)) spacing pieces.now.parts pieces.now.owners) v.items) }
{
    let edges = all_conflicts_by(rt, alloc, pieces.parts(), pieces.owner(), spacing, workers)?;
    let marked = edges_of_marks(alloc, pieces.parts(), marks)?;
    joined_with(alloc, edges, &marked)
}

/// Whether the first so many edges have an odd cycle, and so all of them.
fn start_odd(alloc: Global, edges: &[Edge], count: usize) -> Result<bool, AllocError>
    requires { AreEdgePairs edges.now }
    ensures { IfOk result (λ odd. IsTrue odd → HasOddCycle (graph_of edges.now)) }
{
    let first = &edges[..edges.len().min(count)];
    let joined = stars(alloc, first)?;
    Ok(joined.is_odd())
}

/// The conflicts whose edges these are.
fn conflicts_among(alloc: Global, edges: Vec<Edge>) -> Result<Conflicts, AllocError>
    requires { AreEdgePairs edges.items }
    ensures { IfOk result (AreAmong edges.items) }
{
    if edges.len() > MOST_AT_ONCE && start_odd(alloc, &edges, FIRST_EDGES)? {
        return Ok(Conflicts::Odd(edges));
    }
    let joined = stars(alloc, &edges)?;
    match &joined {
        Joined::Stars(_) => Ok(Conflicts::Even(joined)),
        Joined::Odd => Ok(Conflicts::Odd(edges)),
    }
}

/// The conflicts of the pieces, by the list of all edges, which so many workers find.
pub(crate) fn listed_conflicts<R: Threads + Sync>(
    rt: &R,
    alloc: Global,
    pieces: &BarePieces,
    marks: Option<&MarkSets>,
    spacing: Spacing,
    workers: u32,
) -> Result<Conflicts, AllocError>
    requires corner { spacing.corner ≤ spacing.rule }
    requires workers { 1 ≤ workers }
    ensures { IfOk result (AreConflictsOf (marks_in (option_copied marks.entry)) spacing pieces.now.parts pieces.now.owners) }
{
    let edges = edges_at_once(rt, alloc, pieces, marks, spacing, workers)?;
    conflicts_among(alloc, edges)
}

/// The tiles of the pieces, whose side is `tile`, doubled some number of times, and that of the marks.
pub(crate) fn tiles_of<'a>(
    alloc: Global,
    pieces: &'a BarePieces,
    marks: Option<&MarkSets>,
    spacing: Spacing,
    tile: u32,
) -> Result<EdgeJob<'a>, AllocError>
    requires corner { spacing.corner ≤ spacing.rule }
    requires rule { IsRule spacing.rule }
    requires tile { IsTile tile }
    ensures plan { IfOk result (λ job. (side : ℕ) × IsDoubled tile side × IsPlan pieces.now.parts pieces.now.owners spacing side job.plan) }
    ensures marked { IfOk result (λ job. AreMarkEdges (marks_in (option_copied marks.entry)) pieces.now.parts job.marked) }
{
    let side = side_for(pieces.parts(), tile);
    let plan = plan(alloc, pieces.parts(), pieces.owner(), spacing, side)?;
    let marked = edges_of_marks(alloc, pieces.parts(), marks)?;
    EdgeJob::of(plan, marked)
}
