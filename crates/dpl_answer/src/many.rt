//! The conflicts of many layers, whose tiles one pool works out.
ghost use Rattle.std.specs.Prelude.{◌≡◌, ◌<◌, ◌≤◌, ◌^◌, IfOk, map, true};
ghost use Rattle.std.specs.List.{AllZip};
ghost use Rattle.dpl_spec_split.specs.declared.Spacing.{Spacing as SpacingOf};
ghost use Rattle.dpl_cert.specs.Grammar.{IsRule};
ghost use Rattle.dpl_cut.specs.declared.BareLayerCut.{BareLayerCut as BareLayerCutOf};
ghost use Rattle.dpl_pool.specs.Numbering.{tile_count};
ghost use Rattle.dpl_answer.specs.Flat.{AreWorkers, IsTile};
ghost use Rattle.dpl_answer.specs.Many.{AreConflictsOfCut, AreConflictsFrom, IsStartOf, IsToldBy, tiles_left};

use crate::conflicts::{
    Conflicts, Sharing, are_listed_at_once, conflicts_by, listed_conflicts, tiles_of,
};
use crate::job::EdgeJob;
use dpl_base::Spacing;
use dpl_board::{BoardState, Job};
use dpl_cut::BareLayerCut;
use dpl_pool::{Gate, run_many};
use dpl_stars::Joined;
use std::alloc::{AllocError, Global};
use std::sync::Wait;
use std::thread::Threads;

/// What is known of a layer's conflicts before workers begin with tiles. To them it is a job: a layer whose conflicts are known has no tiles left.
#[derive(Drop)]
enum Start<'a> {
    /// The conflicts of a layer that were listed at once.
    Known(Conflicts),
    /// The tiles of any other.
    Tiled(EdgeJob<'a>),
}

impl<'a> Job for Start<'a> {
    ghost sheet = { tiles_left };

    fn tiles(&self) -> u32 {
        match self {
            Start::Known(_) => 0,
            Start::Tiled(job) => job.tiles(),
        }
    }

    fn summary(&self, alloc: Global, tile: u32) -> Result<Joined, AllocError> {
        match self {
            Start::Known(_) => unreachable!(),
            Start::Tiled(job) => job.summary(alloc, tile),
        }
    }
}

/// The conflicts of each of these cut layers, without marks, each as `conflicts_of` gives them. One pool works out the tiles of all layers.
///
/// The error: out of memory, which is also the answer where all layers together have 2^32 tiles or more.
pub fn conflicts_of_all<R: Threads + Wait + Sync, G: Gate + Sync>(
    rt: &R,
    alloc: Global,
    cuts: &[BareLayerCut],
    spacing: Spacing,
    sharing: Sharing,
    gate: &G,
) -> Result<Vec<Conflicts>, AllocError>
    requires corner { spacing.corner ≤ spacing.rule }
    requires rule { IsRule spacing.rule }
    requires tile { IsTile sharing.tile }
    requires workers { AreWorkers sharing.workers }
    ensures { IfOk result (λ all. AllZip (AreConflictsOfCut spacing) cuts.now all.items) }
{
    let starts = all_started(rt, alloc, cuts, spacing, sharing)?;
    if !have_room(&starts) {
        return Err(AllocError);
    }
    let boards = run_many(rt, alloc, sharing.workers, &starts, gate)?;
    all_found(alloc, starts, &boards)
}

/// The start of each of these layers.
fn all_started<'a, R: Threads + Sync>(
    rt: &R,
    alloc: Global,
    cuts: &'a [BareLayerCut],
    spacing: Spacing,
    sharing: Sharing,
) -> Result<Vec<Start<'a>>, AllocError>
    requires corner { spacing.corner ≤ spacing.rule }
    requires rule { IsRule spacing.rule }
    requires tile { IsTile sharing.tile }
    requires workers { AreWorkers sharing.workers }
    ensures { IfOk result (λ starts. AllZip (IsStartOf spacing) cuts.now starts.items) }
{
    let mut starts = Vec::new(alloc);
    for cut in cuts {
        starts.push(started(rt, alloc, cut, spacing, sharing)?)?;
    }
    Ok(starts)
}

/// The start of a layer: its conflicts, where they are listed at once, or tiles whose side is that of `sharing`, doubled some number of times.
fn started<'a, R: Threads + Sync>(
    rt: &R,
    alloc: Global,
    cut: &'a BareLayerCut,
    spacing: Spacing,
    sharing: Sharing,
) -> Result<Start<'a>, AllocError>
    requires corner { spacing.corner ≤ spacing.rule }
    requires rule { IsRule spacing.rule }
    requires tile { IsTile sharing.tile }
    requires workers { AreWorkers sharing.workers }
    ensures { IfOk result (IsStartOf spacing cut.now) }
{
    if are_listed_at_once(cut.pieces.parts().items(), spacing.rule, sharing.workers) {
        let conflicts = listed_conflicts(rt, alloc, &cut.pieces, None, spacing, sharing.workers)?;
        return Ok(Start::Known(conflicts));
    }
    let job = tiles_of(alloc, &cut.pieces, None, spacing, sharing.tile)?;
    Ok(Start::Tiled(job))
}

/// Whether the layers have fewer than 2^32 tiles together.
fn have_room(starts: &[Start<'_>]) -> bool
    ensures { result ≡ true → tile_count (map tiles_left starts.now) < 2 ^ 32 }
{
    let mut tiles: u32 = 0;
    for start in starts {
        let Some(sum) = tiles.checked_add(start.tiles()) else {
            return false;
        };
        tiles = sum;
    }
    true
}

/// The conflicts of each layer, by its board.
fn all_found(
    alloc: Global,
    starts: Vec<Start<'_>>,
    boards: &[BoardState],
) -> Result<Vec<Conflicts>, AllocError>
    requires { AllZip IsToldBy starts.items boards.now }
    ensures { IfOk result (λ all. AllZip AreConflictsFrom starts.entry.items all.items) }
{
    let mut all = Vec::new(alloc);
    let mut at = 0;
    for start in starts {
        all.push(found(alloc, start, &boards[at])?)?;
        at += 1;
    }
    Ok(all)
}

/// The conflicts of a layer, by its board.
fn found(alloc: Global, start: Start<'_>, board: &BoardState) -> Result<Conflicts, AllocError>
    requires { IsToldBy start board.now }
    ensures { (spacing : SpacingOf) (cut : BareLayerCutOf) → IsStartOf spacing cut start.entry → IfOk result (AreConflictsOfCut spacing cut) }
{
    match start {
        Start::Known(conflicts) => Ok(conflicts),
        Start::Tiled(job) => {
            let joined = board.joined().copy(alloc)?;
            conflicts_by(alloc, &job, joined)
        }
    }
}
