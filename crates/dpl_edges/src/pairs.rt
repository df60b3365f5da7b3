//! The conflicts of pieces without a plan: workers look at the close pairs of slabs, strip by strip.
ghost use Rattle.std.specs.Prelude.{◌≡◌, ◌<◌, ◌≤◌, ◌↔◌, ℕ, IsTrue, IfOk, OnOk, length};
ghost use Rattle.std.specs.List.{All, Contains};
ghost use Rattle.dpl_spec_split.specs.Graphs.{AreEdges};
ghost use Rattle.dpl_spec_split.specs.Loops.{farthest};
ghost use Rattle.dpl_spec_split.specs.Pieces.{Conflict};
ghost use Rattle.dpl_spec_split.specs.Squares.{IsSolidWithin};
ghost use Rattle.dpl_join.specs.declared.items.Item.{Item};
ghost use Rattle.dpl_tile.specs.Adding.{Adds};
ghost use Rattle.dpl_edges.specs.Found.{AreSortedBetween, IsBetween, IsDealtEdge, IsFoesEdge, IsFoesEdgeAmong, IsFoundEdge, IsJoinOf};
ghost use Rattle.dpl_edges.specs.Meetings.{IsEnds};

use dpl_base::{Edge, Id, Spacing};
use dpl_join::{Item, Join, Pair};
use dpl_slabs::Parts;
use dpl_sort::sort;
use dpl_tile::{are_foes, items_of};
use std::alloc::{AllocError, Global};
use std::thread::{Threads, join, map_indices};

/// The numbers of two pieces, the smaller first, in half the memory of an `Edge`.
type ShortEdge = (u32, u32);

/// How many workers find edges, and sort them, at most. Each has the close pairs of a strip in memory, and looks at all edges for its own.
const MOST_WORKERS: u32 = 16;

/// How many edges are found at least, where workers share their sort.
const MANY: usize = 32_768;

/// The two numbers, the smaller first.
fn ends(i: u32, k: u32) -> ShortEdge
    ensures { IsEnds i k result }
{
    if i < k { (i, k) } else { (k, i) }
}

/// Whether the edge is the last one.
fn is_last(found: &[ShortEdge], edge: ShortEdge) -> bool
    ensures { IsTrue result → Contains found.now edge }
{
    match found.last() {
        Some(last) => *last == edge,
        None => false,
    }
}

/// Adds the edge of a pair of slabs, where they have different owners and are near, unless it was added last.
fn add_edge(
    found: &mut Vec<ShortEdge>,
    items: &[Item],
    pair: &Pair,
    owners: &[Id],
    spacing: Spacing,
) -> Result<(), AllocError>
    requires corner { spacing.corner ≤ spacing.rule }
    requires owned { All (λ (item : Item). item.owner < length owners.now) items.now }
    requires solid { All (λ (item : Item). IsSolidWithin farthest item.rect) items.now }
    requires first { pair.now.0 < length items.now }
    requires second { pair.now.1 < length items.now }
    ensures { OnOk result (Adds (IsFoesEdge spacing owners.now items.now pair.now) found.old.items found.new.items) }
{
    let a = items[pair.0 as usize];
    let b = items[pair.1 as usize];
    if !are_foes(&a, &b, owners, spacing) {
        return Ok(());
    }
    let edge = ends(a.owner, b.owner);
    if is_last(found, edge) {
        return Ok(());
    }
    found.push(edge)?;
    Ok(())
}

/// Adds the edges of these pairs.
fn add_edges(
    found: &mut Vec<ShortEdge>,
    items: &[Item],
    pairs: &[Pair],
    owners: &[Id],
    spacing: Spacing,
) -> Result<(), AllocError>
    requires corner { spacing.corner ≤ spacing.rule }
    requires owned { All (λ (item : Item). item.owner < length owners.now) items.now }
    requires solid { All (λ (item : Item). IsSolidWithin farthest item.rect) items.now }
    requires known { (p : ℕ × ℕ) → Contains pairs.now p → (p.0 < length items.now) × (p.1 < length items.now) }
    ensures { OnOk result (Adds (IsFoesEdgeAmong spacing owners.now items.now pairs.now) found.old.items found.new.items) }
{
    for pair in pairs {
        add_edge(found, items, pair, owners, spacing)?;
    }
    Ok(())
}

/// The edges that a worker finds, in no order, some of them more than once: those of pairs that count in a strip dealt to it. Strip `k` is dealt to worker `k % workers`. The pairs are found strip by strip, so those of one are in memory at a time.
fn dealt_edges(
    alloc: Global,
    join: &Join,
    owners: &[Id],
    spacing: Spacing,
    worker: usize,
    workers: usize,
) -> Result<Vec<ShortEdge>, AllocError>
    requires corner { spacing.corner ≤ spacing.rule }
    requires owned { All (λ (item : Item). item.owner < length owners.now) join.now.items }
    requires solid { All (λ (item : Item). IsSolidWithin farthest item.rect) join.now.items }
    requires workers { 1 ≤ workers }
    ensures { IfOk result (λ v. (e : ℕ × ℕ) → Contains v.items e ↔ IsDealtEdge spacing owners.now join.now workers worker e) }
{
    let items = join.items();
    let mut found = Vec::new(alloc);
    let count = join.strips();
    for strip in 0..count {
        if strip % workers == worker {
            let pairs = join.pairs_of_strip(alloc, strip)?;
            add_edges(&mut found, items, pairs.as_slice(), owners, spacing)?;
        }
    }
    Ok(found)
}

/// How many of the workers look at the strips of a join: no more than there are strips.
fn workers_for(join: &Join, workers: u32) -> usize
    ensures { 1 ≤ result }
{
    (workers.min(MOST_WORKERS) as usize)
        .min(join.strips())
        .max(1)
}

/// The edges of all pairs of a join, in no order, some of them more than once, each found by one of so many workers, or of as many as there are strips.
fn found_edges_by<R: Threads + Sync>(
    rt: &R,
    alloc: Global,
    join: &Join,
    owners: &[Id],
    spacing: Spacing,
    workers: u32,
) -> Result<Vec<ShortEdge>, AllocError>
    requires corner { spacing.corner ≤ spacing.rule }
    requires owned { All (λ (item : Item). item.owner < length owners.now) join.now.items }
    requires solid { All (λ (item : Item). IsSolidWithin farthest item.rect) join.now.items }
    ensures { IfOk result (λ v. (e : ℕ × ℕ) → Contains v.items e ↔ IsFoundEdge spacing owners.now join.now e) }
{
    let count = workers_for(join, workers);
    let mut lists = map_indices(
        rt,
        alloc,
        count,
        &|worker| { dealt_edges(alloc, join, owners, spacing, worker, count) },
    )?;
    let mut found = Vec::new(alloc);
    while let Some(list) = lists.pop() {
        let mut list = list?;
        found.append(&mut list)?;
    }
    Ok(found)
}

/// Adds an edge, where its smaller number is one from `low` up to but not `high`.
fn add_between(edges: &mut Vec<Edge>, edge: &ShortEdge, low: Id, high: Id) -> Result<(), AllocError>
    ensures { OnOk result (Adds (IsBetween low high edge.now) edges.old.items edges.new.items) }
{
    let first = edge.0 as Id;
    if first < low {
        return Ok(());
    }
    if high <= first {
        return Ok(());
    }
    edges.push((first, edge.1 as Id))?;
    Ok(())
}

/// Those of the edges whose smaller number is one from `low` up to but not `high`.
fn edges_between(
    alloc: Global,
    found: &[ShortEdge],
    low: Id,
    high: Id,
) -> Result<Vec<Edge>, AllocError>
    ensures { IfOk result (λ v. (e : ℕ × ℕ) → Contains v.items e ↔ (Contains found.now e × (low ≤ e.0) × (e.0 < high))) }
{
    let mut edges = Vec::new(alloc);
    for edge in found {
        add_between(&mut edges, edge, low, high)?;
    }
    Ok(edges)
}

/// Those of the edges whose smaller number is one from `low` up to but not `high`, in order, each once.
fn sorted_between(
    alloc: Global,
    found: &[ShortEdge],
    low: Id,
    high: Id,
) -> Result<Vec<Edge>, AllocError>
    ensures { IfOk result (λ v. AreSortedBetween found.now low high v.items) }
{
    let mut edges = edges_between(alloc, found, low, high)?;
    sort(&mut edges);
    edges.dedup();
    Ok(edges)
}

/// The same as `sorted_between` gives, by so many workers. Each sorts those edges whose smaller number is one of its own.
#[cycle(sorted)]
fn sorted_between_by<R: Threads + Sync>(
    rt: &R,
    alloc: Global,
    found: &[ShortEdge],
    low: Id,
    high: Id,
    workers: u32,
) -> Result<Vec<Edge>, AllocError>
    requires range { low ≤ high }
    requires workers { 1 ≤ workers }
    ensures { IfOk result (λ v. AreSortedBetween found.now low high v.items) }
{
    if workers == 1 || found.len() < MANY || high - low <= 1 {
        return sorted_between(alloc, found, low, high);
    }
    let half = workers / 2;
    let others = workers - half;
    let middle = low + (high - low) / 2;
    let front = || -> Result<Vec<Edge>, AllocError>
        requires { (low ≤ middle) × (1 ≤ half) }
        ensures { IfOk result (λ v. AreSortedBetween found.entry.now low middle v.items) }
    { sorted_between_by(rt, alloc, found, low, middle, half) };
    let back = || -> Result<Vec<Edge>, AllocError>
        requires { (middle ≤ high) × (1 ≤ others) }
        ensures { IfOk result (λ v. AreSortedBetween found.entry.now middle high v.items) }
    { sorted_between_by(rt, alloc, found, middle, high, others) };
    let (first, second) = join(rt, front, back);
    let mut edges = first?;
    let mut rest = second?;
    edges.append(&mut rest)?;
    Ok(edges)
}

/// The join of the slabs of pieces by the spacing's rule.
fn joined(alloc: Global, parts: &Parts, spacing: Spacing) -> Result<Join, AllocError>
    ensures { IfOk result (λ j. IsJoinOf parts.now spacing j) }
{
    let items = items_of(alloc, parts.items())?;
    Join::of(alloc, items, spacing.rule)
}

/// All conflicts of pieces with these owners, one to each piece, smaller number first, in order, each once: two pieces of different owners conflict where some square of one is near some square of the other by the spacing.
///
/// The error: out of memory.
pub fn all_conflicts(
    alloc: Global,
    parts: &Parts,
    owners: &[Id],
    spacing: Spacing,
) -> Result<Vec<Edge>, AllocError>
    requires corner { spacing.corner ≤ spacing.rule }
    requires owners { length owners.now ≡ length parts.now }
    ensures edges { IfOk result (λ v. AreEdges (Conflict spacing parts.now owners.now) v.items) }
{
    let join = joined(alloc, parts, spacing)?;
    let found = dealt_edges(alloc, &join, owners, spacing, 0, 1)?;
    drop(join);
    sorted_between(alloc, &found, 0, parts.items().len() as Id)
}

/// All conflicts of pieces, as `all_conflicts` gives them. The edges are found and sorted by so many workers, each in a thread of its own, if one can be made; with one worker none is made.
///
/// The error: out of memory.
pub fn all_conflicts_by<R: Threads + Sync>(
    rt: &R,
    alloc: Global,
    parts: &Parts,
    owners: &[Id],
    spacing: Spacing,
    workers: u32,
) -> Result<Vec<Edge>, AllocError>
    requires corner { spacing.corner ≤ spacing.rule }
    requires owners { length owners.now ≡ length parts.now }
    requires workers { 1 ≤ workers }
    ensures edges { IfOk result (λ v. AreEdges (Conflict spacing parts.now owners.now) v.items) }
{
    if workers == 1 {
        return all_conflicts(alloc, parts, owners, spacing);
    }
    let join = joined(alloc, parts, spacing)?;
    let found = found_edges_by(rt, alloc, &join, owners, spacing, workers)?;
    drop(join);
    sorted_between_by(
        rt,
        alloc,
        &found,
        0,
        parts.items().len() as Id,
        workers.min(MOST_WORKERS),
    )
}
