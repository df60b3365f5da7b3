//! Tall strips, which are swept slice by slice, block by block or at once.
ghost use Rattle.std.specs.Prelude.{◌<◌, ◌≤◌, IfOk, OnOk};
ghost use Rattle.dpl_spec_split.specs.Loops.{farthest, IsRectWithin, AreRectsWithin};

use dpl_base::{FARTHEST, Rect};
use dpl_slabs::Slabs;
use std::alloc::{AllocError, Global};
use std::test::Fail;
use std::thread::Threads;

/// How far right a rectangle of a stair begins.
fn left_of(pace: u8, k: u16) -> u32
    ensures { result ≤ 2000000 }
{
    let pair = 2 * pace as u32 * (k / 2) as u32;
    (pair + 50 * (k % 2) as u32).min(2_000_000)
}

/// One of the rectangles of a stair of pairs: each pair lies twice `pace` further right than the one before it, and each rectangle a little further up.
fn step(pace: u8, k: u16) -> Rect
    ensures { IsRectWithin farthest result }
{
    let at = k as i32;
    let left = left_of(pace, k) as i32;
    Rect {
        x0: left,
        y0: 2 * at,
        x1: left + 200,
        y1: 2 * at + 5000,
    }
}

/// Adds a rectangle of a stair.
fn add_step(rects: &mut Vec<Rect>, pace: u8, k: u16) -> Result<(), AllocError>
    requires { AreRectsWithin farthest rects.old.items }
    ensures { OnOk result (AreRectsWithin farthest rects.new.items) }
{
    rects.push(step(pace, k))?;
    Ok(())
}

/// One of the long bars of a stair: the first lies below all of it, each other 100 units above the one before it. By the first there is no column between the stair's rectangles.
fn bar(b: u8) -> Rect
    ensures { IsRectWithin farthest result }
{
    let low = 100 * b as i32 - 20;
    Rect {
        x0: 0,
        y0: low,
        x1: 1_250_000,
        y1: low + 10,
    }
}

/// Adds a long bar.
fn add_bar(rects: &mut Vec<Rect>, b: u8) -> Result<(), AllocError>
    requires { AreRectsWithin farthest rects.old.items }
    ensures { OnOk result (AreRectsWithin farthest rects.new.items) }
{
    rects.push(bar(b))?;
    Ok(())
}

/// The rectangles of a stair from one number up to another.
fn stair(alloc: Global, pace: u8, from: u16, to: u16) -> Result<Vec<Rect>, AllocError>
    ensures { IfOk result (λ v. AreRectsWithin farthest v.items) }
{
    let mut rects = Vec::new(alloc);
    for k in from..to {
        add_step(&mut rects, pace, k)?;
    }
    Ok(rects)
}

/// The rectangles of a stair from one number up to another, and so many long bars.
fn barred(alloc: Global, pace: u8, from: u16, to: u16, bars: u8) -> Result<Vec<Rect>, AllocError>
    ensures { IfOk result (λ v. AreRectsWithin farthest v.items) }
{
    let mut rects = stair(alloc, pace, from, to)?;
    for b in 0..bars {
        add_bar(&mut rects, b)?;
    }
    Ok(rects)
}

/// The squares of a stair from one number up to another, and of so many long bars.
fn squares(alloc: Global, pace: u8, from: u16, to: u16, bars: u8) -> Result<Slabs, AllocError> {
    let rects = barred(alloc, pace, from, to, bars)?;
    Slabs::of_rects(alloc, rects)
}

/// Whether both halves of a stair, which are swept at once, are in the whole, which has no square beside them.
fn has_its_halves(alloc: Global, pace: u8, bars: u8, whole: &Slabs) -> Result<bool, AllocError> {
    let low = squares(alloc, pace, 0, 2500, bars)?;
    let high = squares(alloc, pace, 2500, 5000, bars)?;
    are_halves(alloc, &low, &high, whole)
}

/// Whether two sets are in another, which has no square beside them.
fn are_halves(alloc: Global, low: &Slabs, high: &Slabs, whole: &Slabs) -> Result<bool, AllocError> {
    if !is_in(alloc, low, whole)? || !is_in(alloc, high, whole)? {
        return Ok(false);
    }
    let rest = whole.minus(alloc, low)?;
    Ok(rest.minus(alloc, high)?.least().is_none())
}

/// Whether each square of a set is in another.
fn is_in(alloc: Global, set: &Slabs, other: &Slabs) -> Result<bool, AllocError> {
    Ok(set.equal(&other.meet(alloc, set)?))
}

/// The pace of a stair, its long bars, and how many slabs it has. Rectangles that overlap are swept slice by slice, and wires that stand apart block by block, or slice by slice with a bar below them. Where many bars cross them, slices are given up.
static STAIRS: [(u8, u8, usize); 4] = [
    (1, 0, 5001),
    (250, 0, 7500),
    (250, 1, 7501),
    (250, 66, 57_656),
];

/// Whether a stair has so many slabs, and its halves.
fn is_whole(alloc: Global, pace: u8, bars: u8, count: usize) -> Result<bool, AllocError> {
    let whole = squares(alloc, pace, 0, 5000, bars)?;
    if whole.rects().len() != count {
        return Ok(false);
    }
    has_its_halves(alloc, pace, bars, &whole)
}

#[test]
fn slices_make_the_slabs_of_one_sweep(rt: HostRuntime) {
    for &(pace, bars, count) in &STAIRS {
        assert!(rt; is_whole(rt.alloc(), pace, bars, count) == Ok(true));
    }
}

/// One of the rectangles of a stair that goes up to the last row that a layer can have, as `step` has it at pace 1.
fn high_step(k: u16) -> Rect
    requires { k < 5000 }
    ensures { IsRectWithin farthest result }
{
    let left = left_of(1, k) as i32;
    let low = FARTHEST as i32 - 14_998 + 2 * k as i32;
    Rect {
        x0: left,
        y0: low,
        x1: left + 200,
        y1: low + 5000,
    }
}

/// Adds a rectangle of that stair.
fn add_high_step(rects: &mut Vec<Rect>, k: u16) -> Result<(), AllocError>
    requires few { k < 5000 }
    requires within { AreRectsWithin farthest rects.old.items }
    ensures { OnOk result (AreRectsWithin farthest rects.new.items) }
{
    rects.push(high_step(k))?;
    Ok(())
}

/// The squares of that stair.
fn high_stair(alloc: Global) -> Result<Slabs, AllocError> {
    let mut rects = Vec::new(alloc);
    for k in 0..5000 {
        add_high_step(&mut rects, k)?;
    }
    Slabs::of_rects(alloc, rects)
}

#[test]
fn slices_go_up_to_the_last_row(rt: HostRuntime) -> Result<(), Fail> {
    let set = high_stair(rt.alloc())?;
    assert!(rt; set.rects().len() == 5001);
    assert!(rt; set.has(5050, FARTHEST - 1));
    Ok(())
}

/// The squares of a whole stair and of so many long bars, by so many workers.
fn squares_by<R: Threads + Sync>(
    rt: &R,
    alloc: Global,
    pace: u8,
    bars: u8,
    workers: u32,
) -> Result<Slabs, AllocError> {
    let rects = barred(alloc, pace, 0, 5000, bars)?;
    Slabs::of_shapes_by(rt, alloc, rects, Vec::new(alloc), workers)
}

/// How many workers are asked for.
static WORKERS: [u32; 5] = [0, 1, 2, 4, 64];

#[test]
fn workers_make_the_slabs_of_one(rt: HostRuntime) -> Result<(), Fail> {
    // Slices of rectangles that overlap, blocks of two rectangles, which are too small to be shared, slices of wires that stand apart, and slices that are given up.
    for &(pace, bars, _) in &STAIRS {
        let whole = squares(rt.alloc(), pace, 0, 5000, bars)?;
        for &workers in &WORKERS {
            let slabs = squares_by(&rt, rt.alloc(), pace, bars, workers)?;
            assert!(rt; slabs.equal(&whole));
        }
    }
    Ok(())
}

/// The squares of a stair that none of the rectangles of another has, made at once.
fn without(alloc: Global, pace: u8, turn: u8, holes: u16) -> Result<Slabs, AllocError> {
    let rects = stair(alloc, pace, 0, 5000)?;
    let gone = stair(alloc, turn, 0, holes)?;
    Slabs::of_rects_without(alloc, &rects, &gone)
}

/// Whether they are the same as a difference of sets.
fn is_difference(
    alloc: Global,
    left: &Slabs,
    pace: u8,
    turn: u8,
    holes: u16,
) -> Result<bool, AllocError> {
    let whole = squares(alloc, pace, 0, 5000, 0)?;
    let gone = squares(alloc, turn, 0, holes, 0)?;
    Ok(left.equal(&whole.minus(alloc, &gone)?))
}

/// The paces of a stair and of holes, how many holes there are, and how many slabs are left. Holes are taken out slice by slice, in rectangles that overlap and in wires that stand apart, some of them as long as the wires.
static HOLES: [(u8, u8, u16, usize); 4] = [
    (1, 2, 5000, 2500),
    (2, 1, 5000, 3687),
    (250, 1, 500, 7620),
    (250, 251, 5000, 9724),
];

#[test]
fn slices_have_no_square_of_a_hole(rt: HostRuntime) -> Result<(), Fail> {
    for &(pace, turn, holes, count) in &HOLES {
        let left = without(rt.alloc(), pace, turn, holes)?;
        assert!(rt; left.rects().len() == count);
        assert!(rt; is_difference(rt.alloc(), &left, pace, turn, holes) == Ok(true));
    }
    Ok(())
}
