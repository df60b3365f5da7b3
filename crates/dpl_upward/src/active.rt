//! The rectangles of a list that have squares in a band, as the sweep from the lowest row up goes past them.
ghost use Rattle.std.specs.Prelude.{◌≡◌, ◌≤◌, ◌<ℤ◌, ◌≤ℤ◌, ◌↔◌, [], OnOk, IsTrue, length, take, drop};
ghost use Rattle.std.specs.List.{Contains};
ghost use Rattle.std.specs.List.Sorted.{IsPermutation};
ghost use Rattle.dpl_spec_split.specs.declared.Rect.{Rect};
ghost use Rattle.dpl_order.specs.Orders.{CornersRise};
ghost use Rattle.dpl_upward.specs.Active.{AddsReaching, AreActive, AreGathered, FillBand, HaveBegun, IsReaching, LeftsRise};

use dpl_spec_split::Rect;
use std::alloc::{AllocError, Global};
use std::mem;

/// Whether the rectangle has squares, some of them in the row or above it.
fn is_reaching(r: &Rect, low: i32) -> bool
    ensures { IsTrue result ↔ IsReaching low r.now }
{
    if r.x1 <= r.x0 {
        return false;
    }
    low < r.y1
}

/// Adds those of the rectangles that have squares in the row or above it.
fn add_reaching(found: &mut Vec<Rect>, rects: &[Rect], low: i32) -> Result<(), AllocError>
    ensures { OnOk result (AddsReaching low rects.now found.old.items found.new.items) }
{
    for r in rects {
        if is_reaching(r, low) {
            found.push(*r)?;
        }
    }
    Ok(())
}

/// Sorts by left column.
fn sort_by_left(rects: &mut Vec<Rect>) -> Result<(), AllocError>
    ensures same { OnOk result (IsPermutation rects.old.items rects.new.items) }
    ensures rise { OnOk result (LeftsRise rects.new.items) }
{
    rects.sort_by_key(|r| r.x0)?;
    Ok(())
}

/// Makes the list that of those rectangles of two others that have squares in the row or above it, by left column.
fn gather(
    found: &mut Vec<Rect>,
    active: &[Rect],
    starts: &[Rect],
    low: i32,
) -> Result<(), AllocError>
    ensures { OnOk result (AreGathered low active.now starts.now found.new.items) }
{
    found.clear();
    add_reaching(found, active, low)?;
    add_reaching(found, starts, low)?;
    sort_by_left(found)?;
    Ok(())
}

/// How many of the rectangles, which go by first row, begin in the row or below it.
fn count_begun(rects: &[Rect], low: i32) -> usize
    requires { CornersRise rects.now }
    ensures within { result ≤ length rects.now }
    ensures begun { (r : Rect) → Contains (take result rects.now) r → r.y0 ≤ℤ low }
    ensures above { (r : Rect) → Contains (drop result rects.now) r → low <ℤ r.y0 }
{
    for i in 0..rects.len() {
        if low < rects[i].y0 {
            return i;
        }
    }
    rects.len()
}

/// The lowest row at which one of the rectangles ends, up to `top`.
fn lowest_end(active: &[Rect], low: i32, top: i32) -> i32
    requires order { low <ℤ top }
    requires active { (r : Rect) → Contains active.now r → low <ℤ r.y1 }
    ensures above { low <ℤ result }
    ensures below { result ≤ℤ top }
    ensures ends { (r : Rect) → Contains active.now r → result ≤ℤ r.y1 }
{
    let mut high = top;
    for r in active {
        high = high.min(r.y1);
    }
    high
}

/// The lowest row at which a rectangle ends or one of the others, which go by first row, begins, up to `top`.
fn end_of_band(active: &[Rect], above: &[Rect], low: i32, top: i32) -> i32
    requires order { low <ℤ top }
    requires active { (r : Rect) → Contains active.now r → low <ℤ r.y1 }
    requires rise { CornersRise above.now }
    requires others { (r : Rect) → Contains above.now r → low <ℤ r.y0 }
    ensures above { low <ℤ result }
    ensures below { result ≤ℤ top }
    ensures ends { (r : Rect) → Contains active.now r → result ≤ℤ r.y1 }
    ensures begins { (r : Rect) → Contains above.now r → result ≤ℤ r.y0 }
{
    let high = lowest_end(active, low, top);
    if above.is_empty() {
        return high;
    }
    high.min(above[0].y0)
}

/// Of rectangles that go by first row, those that have squares in a band.
#[derive(Drop)]
pub struct Active {
    /// How many rectangles begin in the band's first row or below it.
    pub begun: usize,
    /// Those of them that have squares in the band, by left column.
    pub rects: Vec<Rect>,
    /// Those of the band below, kept for their room.
    passed: Vec<Rect>,
}

impl Active {
    /// None, as below all rows.
    pub fn new(alloc: Global) -> Active
        ensures begun { result.begun ≡ 0 }
        ensures none { result.rects.items ≡ [] }
    {
        Active {
            begun: 0,
            rects: Vec::new(alloc),
            passed: Vec::new(alloc),
        }
    }

    /// Goes on to the band that begins in row `low`.
    pub fn begin(&mut self, all: &[Rect], low: i32) -> Result<(), AllocError>
        requires rise { CornersRise all.now }
        requires active { AreActive low all.now self.old.begun self.old.rects.items }
        ensures { OnOk result (HaveBegun low all.now self.new.begun self.new.rects.items) }
    {
        let (_, rest) = all.split_at(self.begun);
        if self.rects.is_empty() && rest.is_empty() {
            return Ok(());
        }
        let count = count_begun(rest, low);
        let (starts, _) = rest.split_at(count);
        gather(&mut self.passed, &self.rects, starts, low)?;
        mem::swap(&mut self.rects, &mut self.passed);
        self.begun += count;
        Ok(())
    }

    /// The row up to which the band goes that begins in row `low`: the lowest at which one of its rectangles ends or a later one begins, up to `top`.
    pub fn end(&self, all: &[Rect], low: i32, top: i32) -> i32
        requires order { low <ℤ top }
        requires rise { CornersRise all.now }
        requires begun { HaveBegun low all.now self.now.begun self.now.rects.items }
        ensures above { low <ℤ result }
        ensures below { result ≤ℤ top }
        ensures fill { FillBand low result all.now self.now.rects.items }
    {
        let (_, rest) = all.split_at(self.begun);
        end_of_band(&self.rects, rest, low, top)
    }
}
