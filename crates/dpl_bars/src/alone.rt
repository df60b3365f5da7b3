//! Bars of a slice of rows that stand apart from all else in it.
ghost use Rattle.std.specs.Prelude.{◌⊎◌, IfOk, OnOk};
ghost use Rattle.std.specs.List.{AllPairs, Contains};
ghost use Rattle.std.specs.List.Sorted.{IsPermutation};
ghost use Rattle.dpl_spec_split.specs.declared.Rect.{Rect};
ghost use Rattle.dpl_spec_split.specs.Slabs.{StandApart};
ghost use Rattle.dpl_bars.specs.Alone.{LeftsRise, ReachTo, IsPrefixAt, AreAlone, AddsTouching};

use dpl_base::{Rect, give_back};
use std::alloc::{AllocError, Global};

/// How many rectangles, by left column, were passed, and up to which column they reach.
#[derive(Clone, Copy, Drop)]
struct Prefix {
    passed: usize,
    reach: i32,
}

/// Before the first of the rectangles.
const START: Prefix = Prefix {
    passed: 0,
    reach: i32::MIN,
};

/// Goes on past all rectangles that begin in the column or left of it.
fn advanced(rects: &[Rect], prefix: Prefix, x: i32) -> Prefix
    requires rise { LeftsRise rects.now }
    requires reach { ReachTo rects.now prefix.passed prefix.reach }
    ensures { IsPrefixAt rects.now x result.passed result.reach }
{
    let mut reach = prefix.reach;
    for i in prefix.passed..rects.len() {
        if x < rects[i].x0 {
            return Prefix { passed: i, reach };
        }
        reach = reach.max(rects[i].x1);
    }
    Prefix {
        passed: rects.len(),
        reach,
    }
}

/// Sorts by left column.
fn sort_by_left(rects: &mut Vec<Rect>)
    ensures same { IsPermutation rects.old.items rects.new.items }
    ensures rise { LeftsRise rects.new.items }
{
    rects.sort_unstable_by_key(|r| r.x0);
}

/// The rectangles of both lists, by left column.
fn by_left(alloc: Global, others: &[Rect], beside: &[Rect]) -> Result<Vec<Rect>, AllocError>
    ensures all { IfOk result (λ v. (r : Rect) → (Contains others.now r ⊎ Contains beside.now r) → Contains v.items r) }
    ensures rise { IfOk result (λ v. LeftsRise v.items) }
{
    let mut near = Vec::with_capacity(alloc, others.len().saturating_add(beside.len()))?;
    near.extend_from_slice(others)?;
    near.extend_from_slice(beside)?;
    sort_by_left(&mut near);
    Ok(near)
}

/// Bars that stand apart from all others and from all rectangles beside them; they are kept in the bars' own list. The rest of the bars is added to the others.
pub fn alone_of(
    alloc: Global,
    bars: Vec<Rect>,
    others: &mut Vec<Rect>,
    beside: &[Rect],
) -> Result<Vec<Rect>, AllocError>
    requires { AllPairs StandApart bars.items }
    ensures { IfOk result (λ v. AreAlone bars.items beside.now others.old.items others.new.items v.items) }
{
    if bars.is_empty() {
        return Ok(bars);
    }
    let near = by_left(alloc, others, beside)?;
    let mut alone = bars;
    let mut prefix = START;
    let mut kept = 0;
    for i in 0..alone.len() {
        let bar = alone[i];
        prefix = advanced(&near, prefix, bar.x1);
        if prefix.reach < bar.x0 {
            alone[kept] = bar;
            kept += 1;
        } else {
            others.push(bar)?;
        }
    }
    alone.truncate(kept);
    give_back(&mut alone);
    Ok(alone)
}

/// Adds those bars to the others that don't stand apart from all rectangles beside them.
pub fn add_touching(
    alloc: Global,
    others: &mut Vec<Rect>,
    bars: &[Rect],
    beside: &[Rect],
) -> Result<(), AllocError>
    ensures { OnOk result (AddsTouching bars.now beside.now others.old.items others.new.items) }
{
    if bars.is_empty() {
        return Ok(());
    }
    let near = by_left(alloc, &[], beside)?;
    let mut prefix = START;
    for bar in bars {
        prefix = advanced(&near, prefix, bar.x1);
        if bar.x0 <= prefix.reach {
            others.push(*bar)?;
        }
    }
    Ok(())
}
