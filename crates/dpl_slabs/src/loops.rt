//! The squares of a loop.
ghost use Rattle.std.specs.Prelude.{◌≤◌, IfOk, OnOk, length};
ghost use Rattle.dpl_spec_split.specs.Slabs.{AreSlabsOf};
ghost use Rattle.dpl_spec_split.specs.Loops.{farthest, LoopCovers, SomeLoopCovers, ArePointsWithin, IsPointWithin, AreLoopsWithin, AreRectsWithin};
ghost use Rattle.dpl_slabs.specs.Loops.{AddsStep, AreEdgesOf, AreRectsOf, SomeDealtCovers};

use crate::slices::put_together;
use dpl_base::{Loop, Pt, Rect};
use dpl_sweep::{Edge, Rule, slabs_of_edges};
use std::alloc::{AllocError, Global};
use std::thread::{Threads, map_indices};

/// How many corners loops have at least, where workers share them. Fewer are swept while a thread is made.
const MANY: usize = 8192;

/// How many workers share loops at most.
const MOST_WORKERS: usize = 64;

/// Adds the edge from one point to the next, unless it is level.
fn add_step(edges: &mut Vec<Edge>, p: &Pt, q: &Pt) -> Result<(), AllocError>
    requires p { IsPointWithin farthest p.now }
    requires q { IsPointWithin farthest q.now }
    ensures { OnOk result (AddsStep edges.old.items edges.new.items p.now q.now) }
{
    if p.y < q.y {
        edges.push(Edge {
            x: p.x as i32,
            y0: p.y as i32,
            y1: q.y as i32,
            a: 1,
            b: 0,
        })?;
        return Ok(());
    }
    if q.y < p.y {
        edges.push(Edge {
            x: p.x as i32,
            y0: q.y as i32,
            y1: p.y as i32,
            a: -1,
            b: 0,
        })?;
        return Ok(());
    }
    Ok(())
}

/// The edges of a loop.
fn edges_of(alloc: Global, points: &[Pt]) -> Result<Vec<Edge>, AllocError>
    requires { ArePointsWithin farthest points.now }
    ensures { IfOk result (λ v. AreEdgesOf points.now v.items) }
{
    let mut edges = Vec::new(alloc);
    if points.is_empty() {
        return Ok(edges);
    }
    for i in 1..points.len() {
        add_step(&mut edges, &points[i - 1], &points[i])?;
    }
    add_step(&mut edges, &points[points.len() - 1], &points[0])?;
    Ok(edges)
}

/// The canonical slabs of a loop's squares.
fn slabs_of_loop(alloc: Global, points: &[Pt]) -> Result<Vec<Rect>, AllocError>
    requires { ArePointsWithin farthest points.now }
    ensures slabs { IfOk result (λ v. AreSlabsOf (LoopCovers points.now) v.items) }
    ensures within { IfOk result (λ v. AreRectsWithin farthest v.items) }
{
    let edges = edges_of(alloc, points)?;
    slabs_of_edges(alloc, edges, Rule::Either)
}

/// Rectangles that have the squares of the loops dealt to a worker: the slabs of each loop. Loop `k` is dealt to worker `k % workers`.
pub fn rects_of_dealt(
    alloc: Global,
    loops: &[Loop],
    worker: usize,
    workers: usize,
) -> Result<Vec<Rect>, AllocError>
    requires loops { AreLoopsWithin farthest loops.now }
    requires workers { 1 ≤ workers }
    ensures { IfOk result (λ v. AreRectsOf (SomeDealtCovers loops.now worker workers (length loops.now)) v.items) }
{
    let mut rects = Vec::new(alloc);
    for i in 0..loops.len() {
        if i % workers == worker {
            let slabs = slabs_of_loop(alloc, loops[i].items())?;
            rects.extend_from_slice(&slabs)?;
        }
    }
    Ok(rects)
}

/// How many of the workers sweep loops: no more than there are loops, and one where these have few corners.
fn workers_for(loops: &[Loop], workers: u32) -> usize
    ensures { 1 ≤ result }
{
    let mut corners: usize = 0;
    for i in 0..loops.len() {
        corners = corners.saturating_add(loops[i].items().len());
    }
    if corners < MANY {
        return 1;
    }
    (workers as usize).min(loops.len()).clamp(1, MOST_WORKERS)
}

/// Rectangles that have the squares of loops, which are dealt to workers.
pub fn rects_of_loops_by<R: Threads + Sync>(
    rt: &R,
    alloc: Global,
    loops: &[Loop],
    workers: u32,
) -> Result<Vec<Rect>, AllocError>
    requires { AreLoopsWithin farthest loops.now }
    ensures { IfOk result (λ v. AreRectsOf (SomeLoopCovers loops.now) v.items) }
{
    let count = workers_for(loops, workers);
    let mut lists = map_indices(
        rt,
        alloc,
        count,
        &|worker| { rects_of_dealt(alloc, loops, worker, count) },
    )?;
    let mut rects = Vec::new(alloc);
    while let Some(list) = lists.pop() {
        rects = put_together(rects, list?)?;
    }
    Ok(rects)
}
