//! Worked sets of squares: those of loops, and what is made of sets.
ghost use Rattle.std.specs.Prelude.{IfOk, OnOk};
ghost use Rattle.dpl_spec_split.specs.Loops.{farthest, IsPointWithin, ArePointsWithin, AreLoopsWithin};

use crate::bars::{Corners, RING, are};
use dpl_base::{Loop, Pt};
use dpl_slabs::Slabs;
use std::alloc::{AllocError, Global};
use std::test::Fail;
use std::thread::Threads;

/// A corner of a loop.
type Corner = (i16, i16);

/// A point with small coordinates.
fn point(corner: &Corner) -> Pt
    ensures { IsPointWithin farthest result }
{
    Pt {
        x: corner.0 as i64,
        y: corner.1 as i64,
    }
}

/// The loop through the points.
fn loop_of(alloc: Global, corners: &[Corner]) -> Result<Loop, AllocError>
    ensures { IfOk result (λ l. ArePointsWithin farthest l) }
{
    let mut points = Vec::new(alloc);
    for corner in corners {
        points.push(point(corner))?;
    }
    Ok(Loop::of(points))
}

/// Adds loops to others.
fn add_loops(alloc: Global, all: &mut Vec<Loop>, loops: &[&[Corner]]) -> Result<(), AllocError>
    requires { AreLoopsWithin farthest all.old.items }
    ensures { OnOk result (AreLoopsWithin farthest all.new.items) }
{
    for i in 0..loops.len() {
        all.push(loop_of(alloc, loops[i])?)?;
    }
    Ok(())
}

/// The loops, so many times one behind the other.
fn repeated(alloc: Global, loops: &[&[Corner]], times: u16) -> Result<Vec<Loop>, AllocError>
    ensures { IfOk result (λ v. AreLoopsWithin farthest v.items) }
{
    let mut all = Vec::new(alloc);
    for _ in 0..times {
        add_loops(alloc, &mut all, loops)?;
    }
    Ok(all)
}

/// The squares of loops.
fn slabs_of(alloc: Global, loops: &[&[Corner]]) -> Result<Slabs, AllocError> {
    Slabs::of_loops(alloc, repeated(alloc, loops, 1)?)
}

const LOW: [Corner; 4] = [(0, 0), (10, 0), (10, 10), (0, 10)];

const HIGH: [Corner; 4] = [(10, 10), (10, 20), (20, 20), (20, 10)];

/// A square with a hole, drawn along a cut from the left; the last point is the first again.
const DRAWN: [Corner; 13] = [
    (0, 0),
    (100, 0),
    (100, 100),
    (0, 100),
    (0, 50),
    (40, 50),
    (40, 60),
    (60, 60),
    (60, 40),
    (40, 40),
    (40, 50),
    (0, 50),
    (0, 0),
];

/// Strips of rows, the upper one a row of bars.
const STRIPS: [&[Corner]; 6] = [
    &[(26, 21), (30, 21), (30, 30), (26, 30)],
    &[(0, 10), (10, 10), (10, 20), (0, 20)],
    &[(20, 21), (25, 21), (25, 30), (20, 30)],
    &[(5, 21), (20, 21), (20, 30), (5, 30)],
    &[(0, 21), (10, 21), (10, 30), (0, 30)],
    &LOW,
];

/// Loops, and the slabs of their squares.
static LOOPS: [(&[&[Corner]], &[Corners]); 3] = [
    (&[&LOW, &HIGH], &[(0, 0, 10, 10), (10, 10, 20, 20)]),
    (&[&DRAWN], &RING),
    (
        &STRIPS,
        &[(0, 0, 10, 20), (0, 21, 25, 30), (26, 21, 30, 30)],
    ),
];

#[test]
fn loops_have_their_slabs(rt: HostRuntime) -> Result<(), Fail> {
    for &(loops, want) in &LOOPS {
        let set = slabs_of(rt.alloc(), loops)?;
        assert!(rt; are(set.rects(), want));
    }
    Ok(())
}

/// The squares of the same loops so many times that workers share them.
fn many_by<R: Threads + Sync>(
    rt: &R,
    alloc: Global,
    loops: &[&[Corner]],
    workers: u32,
) -> Result<Slabs, AllocError> {
    let many = repeated(alloc, loops, 1100)?;
    Slabs::of_shapes_by(rt, alloc, Vec::new(alloc), many, workers)
}

#[test]
fn workers_make_the_slabs_of_loops_that_one_makes(rt: HostRuntime) -> Result<(), Fail> {
    for &(loops, want) in &LOOPS {
        for &workers in &[2, 64] {
            let set = many_by(&rt, rt.alloc(), loops, workers)?;
            assert!(rt; are(set.rects(), want));
        }
    }
    Ok(())
}

/// Whether two loops have the same squares.
fn are_alike(alloc: Global, one: &[Corner], other: &[Corner]) -> Result<bool, AllocError> {
    let set = slabs_of(alloc, &[one])?;
    let again = slabs_of(alloc, &[other])?;
    Ok(set.equal(&again))
}

#[test]
fn a_loop_closes_without_its_first_point_again(rt: HostRuntime) {
    assert!(rt; are_alike(rt.alloc(), &DRAWN, &DRAWN[..12]) == Ok(true));
}

/// What two sets are put together by.
#[derive(Clone, Copy)]
enum Together {
    Union,
    Minus,
    Without,
    Meet,
}

/// Two sets, put together.
fn put_together(alloc: Global, a: &Slabs, b: &Slabs, by: Together) -> Result<Slabs, AllocError> {
    match by {
        Together::Union => a.union(alloc, b),
        Together::Minus => a.minus(alloc, b),
        Together::Without => Slabs::of_rects_without(alloc, a.rects(), b.rects()),
        Together::Meet => a.meet(alloc, b),
    }
}

/// Two squares that overlap at a corner, put together.
fn of_two(alloc: Global, by: Together) -> Result<Slabs, AllocError> {
    let a = slabs_of(alloc, &[&LOW])?;
    let b = slabs_of(alloc, &[&[(5, 5), (15, 5), (15, 15), (5, 15)]])?;
    put_together(alloc, &a, &b, by)
}

/// What two squares are put together by, the slabs, which are those of the columns too, the least square, and whether (9, 4) and (5, 5) are in the set.
static COMBINED: [(Together, &[Corners], (i64, i64), bool, bool); 4] = [
    (
        Together::Union,
        &[(0, 0, 10, 5), (0, 5, 15, 10), (5, 10, 15, 15)],
        (0, 0),
        true,
        true,
    ),
    (
        Together::Minus,
        &[(0, 0, 10, 5), (0, 5, 5, 10)],
        (0, 0),
        true,
        false,
    ),
    (
        Together::Without,
        &[(0, 0, 10, 5), (0, 5, 5, 10)],
        (0, 0),
        true,
        false,
    ),
    (Together::Meet, &[(5, 5, 10, 10)], (5, 5), false, true),
];

/// The set of a set's slabs.
fn again(alloc: Global, set: &Slabs) -> Result<Slabs, AllocError> {
    Slabs::of_rects(alloc, Vec::from_slice(alloc, set.rects())?)
}

/// Whether a set has these slabs by columns.
fn has_columns(alloc: Global, set: &Slabs, want: &[Corners]) -> Result<bool, AllocError> {
    let columns = set.columns(alloc)?;
    Ok(are(&columns, want))
}

/// Whether a set has these slabs, by rows and by columns, and is the set of them.
fn has_slabs(alloc: Global, set: &Slabs, want: &[Corners]) -> Result<bool, AllocError> {
    if !are(set.rects(), want) || !has_columns(alloc, set, want)? {
        return Ok(false);
    }
    Ok(set.equal(&again(alloc, set)?))
}

#[test]
fn sets_are_combined(rt: HostRuntime) -> Result<(), Fail> {
    for &(by, want, (x, y), has_first, has_second) in &COMBINED {
        let set = of_two(rt.alloc(), by)?;
        assert!(rt; has_slabs(rt.alloc(), &set, want) == Ok(true));
        assert!(rt; set.least() == Some(Pt { x, y }));
        assert!(rt; (set.has(9, 4), set.has(5, 5)) == (has_first, has_second));
    }
    Ok(())
}

#[test]
fn columns_of_a_bar_are_one(rt: HostRuntime) -> Result<(), Fail> {
    let bar = slabs_of(rt.alloc(), &[&[(0, 0), (30, 0), (30, 10), (0, 10)]])?;
    assert!(rt; has_columns(rt.alloc(), &bar, &[(0, 0, 10, 30)]) == Ok(true));
    Ok(())
}
