//! Many strips, and many blocks, which workers share.
ghost use Rattle.std.specs.Prelude.{IfOk};
ghost use Rattle.dpl_spec_split.specs.Loops.{farthest, AreRectsWithin};

use dpl_base::Rect;
use dpl_slabs::Slabs;
use dpl_test_cuts::{Corners, rects_of};
use std::alloc::{AllocError, Global};
use std::thread::Threads;

/// How many treads there are: those of 280 stairs.
const TREADS: u16 = 8400;

/// The corners of one of the treads of stairs of 30 treads each, which overlap, upright or turned. Each stair lies above the one before it.
fn tread(k: u16, turn: bool) -> Corners {
    let place = (k % 30) as i32;
    let left = 50 * place;
    let low = 100 * (k / 30) as i32 + place;
    if turn {
        return (low, left, low + 60, left + 70);
    }
    (left, low, left + 70, low + 60)
}

/// All treads, upright or turned.
fn treads(alloc: Global, turn: bool) -> Result<Vec<Rect>, AllocError>
    ensures { IfOk result (λ v. AreRectsWithin farthest v.items) }
{
    let mut corners = Vec::new(alloc);
    for k in 0..TREADS {
        corners.push(tread(k, turn))?;
    }
    rects_of(alloc, &corners)
}

/// How many slabs the treads have, upright or turned, by rows or by columns.
const SLABS: usize = 16_520;

/// Whether so many workers make this set of rectangles.
fn make_set<R: Threads + Sync>(
    rt: &R,
    alloc: Global,
    rects: Vec<Rect>,
    workers: u32,
    want: &Slabs,
) -> Result<bool, AllocError>
    requires { AreRectsWithin farthest rects.items }
{
    let set = Slabs::of_shapes_by(rt, alloc, rects, Vec::new(alloc), workers)?;
    Ok(set.equal(want))
}

/// Whether so many workers make the slabs of a set's columns that one makes, and as many as the treads have.
fn make_columns<R: Threads + Sync>(
    rt: &R,
    alloc: Global,
    set: &Slabs,
    workers: u32,
) -> Result<bool, AllocError> {
    let alone = set.columns(alloc)?;
    let together = set.columns_by(rt, alloc, workers)?;
    Ok(alone.len() == SLABS && together.as_slice() == alone.as_slice())
}

/// The set of all treads.
fn set_of_treads(alloc: Global, turn: bool) -> Result<Slabs, AllocError> {
    let rects = treads(alloc, turn)?;
    Slabs::of_rects(alloc, rects)
}

/// Whether so many workers make the slabs of the treads and of their columns that one makes.
fn make_treads<R: Threads + Sync>(
    rt: &R,
    alloc: Global,
    turn: bool,
    workers: u32,
) -> Result<bool, AllocError> {
    let set = set_of_treads(alloc, turn)?;
    let rects = treads(alloc, turn)?;
    let is_made = make_set(rt, alloc, rects, workers, &set)?;
    let has_columns = make_columns(rt, alloc, &set, workers)?;
    Ok(is_made && has_columns && set.rects().len() == SLABS)
}

/// Whether the stairs are turned, and how many workers share them. Upright, each stair is a strip. Turned, each is a block, and a strip of the columns.
static SHARED: [(bool, u32); 6] = [
    (false, 2),
    (false, 3),
    (false, 64),
    (true, 2),
    (true, 3),
    (true, 64),
];

#[test]
fn workers_share_strips(rt: HostRuntime) {
    for &(turn, workers) in &SHARED {
        let are_same = make_treads(&rt, rt.alloc(), turn, workers) == Ok(true);
        assert!(rt; are_same, "by {workers} workers");
    }
}

/// How many rectangles are on a terrace.
const PER: u16 = 500;

/// The corners of a rectangle on terraces, which lie a little further right from one to the next. A column lies between two terraces.
fn on_terrace(k: u16) -> Corners {
    let left = 3000 * (k / PER) as i32 + (k % PER) as i32;
    let low = 2 * k as i32;
    (left, low, left + 200, low + 12_000)
}

/// The rectangles of twelve terraces.
fn terraces(alloc: Global) -> Result<Vec<Rect>, AllocError>
    ensures { IfOk result (λ v. AreRectsWithin farthest v.items) }
{
    let mut corners = Vec::new(alloc);
    for k in 0..12 * PER {
        corners.push(on_terrace(k))?;
    }
    rects_of(alloc, &corners)
}

/// The set of the terraces.
fn set_of_terraces(alloc: Global) -> Result<Slabs, AllocError> {
    let rects = terraces(alloc)?;
    Slabs::of_rects(alloc, rects)
}

/// Whether so many workers make the set of the terraces that one makes.
fn make_terraces<R: Threads + Sync>(
    rt: &R,
    alloc: Global,
    workers: u32,
) -> Result<bool, AllocError> {
    let set = set_of_terraces(alloc)?;
    let rects = terraces(alloc)?;
    make_set(rt, alloc, rects, workers, &set)
}

/// How many workers make the terraces, each of which is a block. All rows meet.
static WORKERS: [u32; 2] = [3, 4];

#[test]
fn workers_make_the_blocks_of_one(rt: HostRuntime) {
    for &workers in &WORKERS {
        let are_same = make_terraces(&rt, rt.alloc(), workers) == Ok(true);
        assert!(rt; are_same, "by {workers} workers");
    }
}
