//! The tiles of a plan as a job: each tile's conflicts, and the summary of all of them.
ghost use Rattle.std.specs.Prelude.{◌≡◌, ◌<◌, ◌≤◌, [], IfOk, Option, length, slice_index_or};
ghost use Rattle.std.specs.Option.{option_map};
ghost use Rattle.dpl_spec_split.specs.Marks.{Marks, graph};
ghost use Rattle.dpl_stars.specs.Sums.{Sums};
ghost use Rattle.dpl_answer.specs.Anchors.{AreMarkEdges, moved};
ghost use Rattle.dpl_answer.specs.Conflicts.{IsTiled, SumsGraph};
ghost use Rattle.dpl_answer.specs.Sheets.{HavePairs, sheet_of, tile_sheet};

use dpl_base::Edge;
use dpl_board::Job;
use dpl_edges::{edges_of, shifted};
use dpl_pool::{Gate, run_pool};
use dpl_stars::{Joined, stars};
use dpl_tile::Plan;
use std::alloc::{AllocError, Global};
use std::marker::Model;
use std::sync::Wait;
use std::thread::Threads;

/// The job of a pool that finds the conflicts of a plan: the summary of a tile is that of the conflicts that the tile finds. Where marks are asked for, these go by vertices, and there is one more tile, the last, whose edges are those of the marks. A contract sees the plan and the edges of the marks.
#[derive(Drop)]
pub struct EdgeJob<'a> {
    plan: Plan<'a>,
    marked: Option<Vec<Edge>>,
}

impl<'a> Model for EdgeJob<'a> {
    ghost use Rattle.std.specs.Option.{option_map};
    ghost use Rattle.dpl_answer.specs.Sheets.{HasRoom, MarkedPlan};

    ghost Value = { MarkedPlan };

    ghost view = { λ job. record { plan = job.plan; marked = option_map (λ v. v.items) job.marked } };

    ghost invariant = { λ job. HasRoom job.plan (option_map (λ v. v.items) job.marked) };
}

impl<'a> EdgeJob<'a> {
    /// The job of a plan, and of the edges of marks, where marks are asked for. A plan of 2^32 - 1 tiles, which leaves no number for one more, is then answered as out of memory.
    pub(crate) fn of(plan: Plan<'a>, marked: Option<Vec<Edge>>) -> Result<EdgeJob<'a>, AllocError>
        requires { HavePairs (option_map (λ v. v.items) marked) }
        ensures plan { IfOk result (λ job. job.plan ≡ plan.entry) }
        ensures marked { IfOk result (λ job. job.marked ≡ option_map (λ v. v.items) marked) }
    {
        match marked {
            None => Ok(EdgeJob { plan, marked: None }),
            Some(edges) => {
                if plan.tiles() == u32::MAX {
                    return Err(AllocError);
                }
                Ok(EdgeJob {
                    plan,
                    marked: Some(edges),
                })
            }
        }
    }

    /// The plan.
    pub(crate) fn plan(&self) -> &Plan<'a>
        ensures { result.now ≡ self.now.plan }
    {
        &self.plan
    }

    /// The edges of the marks, where marks are asked for.
    pub(crate) fn marked(&self) -> &Option<Vec<Edge>>
        ensures { option_map (λ v. v.items) result.now ≡ self.now.marked }
    {
        &self.marked
    }
}

/// The summary of the conflicts that a tile finds.
fn tile_summary(alloc: Global, plan: &Plan<'_>, tile: u32) -> Result<Joined, AllocError>
    requires { tile < length plan.now.cells }
    ensures { IfOk result (λ joined. Sums (slice_index_or (tile_sheet plan.now) tile []) joined) }
{
    let edges = edges_of(alloc, plan, tile)?;
    stars(alloc, &edges)
}

/// The summary of the conflicts that a tile finds, by vertices.
fn moved_summary(alloc: Global, plan: &Plan<'_>, tile: u32) -> Result<Joined, AllocError>
    requires { tile < length plan.now.cells }
    ensures { IfOk result (λ joined. Sums (moved (slice_index_or (tile_sheet plan.now) tile [])) joined) }
{
    let edges = edges_of(alloc, plan, tile)?;
    let moved = shifted(alloc, &edges)?;
    drop(edges);
    stars(alloc, &moved)
}

impl<'a> Job for EdgeJob<'a> {
    ghost sheet = { λ job. sheet_of job };

    fn tiles(&self) -> u32 {
        match &self.marked {
            None => self.plan.tiles(),
            Some(_) => self.plan.tiles() + 1,
        }
    }

    fn summary(&self, alloc: Global, tile: u32) -> Result<Joined, AllocError> {
        match &self.marked {
            None => tile_summary(alloc, &self.plan, tile),
            Some(marked) => {
                if tile < self.plan.tiles() {
                    moved_summary(alloc, &self.plan, tile)
                } else {
                    stars(alloc, marked)
                }
            }
        }
    }
}

/// The summary of all edges of the job, joined from the summaries of its tiles, which so many workers, 1 to 64, find.
pub(crate) fn joined_conflicts<R: Threads + Wait + Sync, G: Gate + Sync>(
    rt: &R,
    alloc: Global,
    workers: u32,
    job: &EdgeJob<'_>,
    gate: &G,
) -> Result<Joined, AllocError>
    requires tiled { IsTiled job.now.plan }
    requires workers { (0 < workers) × (workers ≤ 64) }
    ensures { (marks : Option Marks) → AreMarkEdges marks job.now.plan.parts job.now.marked → IfOk result (λ j. SumsGraph (graph marks job.now.plan.spacing job.now.plan.parts job.now.plan.owners) j) }
{
    let board = run_pool(rt, alloc, workers, job, gate)?;
    board.joined().copy(alloc)
}
