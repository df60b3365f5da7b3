//! The sweep of rectangles, less holes or none, from the lowest row up, band by band. A band is the rows between two neighbours among the rows at which rectangles or holes begin or end.
ghost use Rattle.std.specs.Prelude.{◌≡◌, ℕ, ℤ, ◌≤◌, ◌<◌, ◌<ℤ◌, ◌≤ℤ◌, ◌↔◌, IfOk, IfSome, OnOk, IsTrue, [], length, slice_index_or};
ghost use Rattle.std.specs.List.{Contains};
ghost use Rattle.dpl_spec_split.specs.declared.Rect.{Rect};
ghost use Rattle.dpl_spec_split.specs.Squares.{Covers};
ghost use Rattle.dpl_spec_split.specs.Slabs.{AreSlabsOf, IsSolid};
ghost use Rattle.dpl_upward.specs.Active.{IsAcross, LeftsRise};
ghost use Rattle.dpl_order.specs.Orders.{CornersRise};
ghost use Rattle.dpl_upward.specs.Fronts.{Adds, ArePassedBy, AreUpTo, IsFront, IsPutAt, IsSought};
ghost use Rattle.dpl_upward.specs.Sweeps.{IsSweptTo, IsUnswept};
ghost use Rattle.dpl_upward.specs.Upward.{bar_in, columns_of, AddsBand, AddsWithout, ArePassed, IsWidened, Left};

use crate::active::Active;
use dpl_order::continues;
use dpl_spec_split::Rect;
use std::alloc::{AllocError, Global};
use std::mem;

/// How many rectangles and holes there may be in bands, each counted for each band that it is in, for each of all of them and of the pieces.
const IN_BANDS: usize = 32;

/// Pieces of the squares below a band and of some of the band's own: their canonical slabs.
#[derive(Drop)]
struct Front {
    pieces: Vec<Rect>,
    /// The numbers of the pieces that have squares of the band below, by left column.
    below: Vec<usize>,
    /// How many of those begin left of the band's bars that are still to come.
    passed: usize,
    /// The numbers of the pieces that have squares of the band.
    here: Vec<usize>,
}

/// How far a walk along the columns of a band has come.
#[derive(Clone, Copy)]
struct Passed {
    /// How many gaps it has passed.
    count: usize,
    /// A column that none of these reaches past.
    reach: i32,
}

/// Adds a bar, to the piece of that number where it stands on that with the same columns. Gives the number of the piece that has the bar.
fn put_at(pieces: &mut Vec<Rect>, number: usize, bar: Rect) -> Result<usize, AllocError>
    ensures { IfOk result (λ n. IsPutAt bar number n pieces.old.items pieces.new.items) }
{
    if number < pieces.len() && continues(&pieces[number], &bar) {
        pieces[number].y1 = bar.y1;
        return Ok(number);
    }
    let number = pieces.len();
    pieces.push(bar)?;
    Ok(number)
}

/// The part of a rectangle in rows `low` to `high - 1`, all of which it has.
fn bar_of(r: &Rect, low: i32, high: i32) -> Rect
    ensures { result ≡ bar_in low high r.now }
{
    Rect {
        x0: r.x0,
        y0: low,
        x1: r.x1,
        y1: high,
    }
}

/// Whether a column lies between the bar and a rectangle right of it.
fn is_right(bar: &Rect, r: &Rect) -> bool
    ensures { IsTrue result ↔ (bar.now.x1 <ℤ r.now.x0) }
{
    bar.x1 < r.x0
}

/// The bar, up to the later end of both.
fn widened(bar: Rect, r: &Rect) -> Rect
    ensures { IsWidened bar r.now result }
{
    Rect {
        x0: bar.x0,
        y0: bar.y0,
        x1: bar.x1.max(r.x1),
        y1: bar.y1,
    }
}

/// The number of the first gap, from a number on, that begins in the column or right of it. Gaps go by left column.
fn count_left(gaps: &[Rect], from: usize, x: i32) -> usize
    requires rise { LeftsRise gaps.now }
    requires from { from ≤ length gaps.now }
    ensures from { from ≤ result }
    ensures within { result ≤ length gaps.now }
    ensures left { (k : ℕ) (d : Rect) → from ≤ k → k < result → (slice_index_or gaps.now k d).x0 <ℤ x }
    ensures right { (k : ℕ) (d : Rect) → result ≤ k → k < length gaps.now → x ≤ℤ (slice_index_or gaps.now k d).x0 }
{
    for i in from..gaps.len() {
        if x <= gaps[i].x0 {
            return i;
        }
    }
    gaps.len()
}

impl Front {
    /// The number of the first piece that has squares of the band below and begins in the bar's first column or right of it, and one that no piece has where there is none.
    fn seek(&mut self, bar: &Rect) -> usize
        requires { IsFront bar.now.y0 bar.now.y1 bar.now.x0 self.old }
        ensures pieces { self.new.pieces.items ≡ self.old.pieces.items }
        ensures below { self.new.below.items ≡ self.old.below.items }
        ensures here { self.new.here.items ≡ self.old.here.items }
        ensures passed { ArePassedBy bar.now.x0 self.old.pieces.items self.old.below.items self.new.passed }
        ensures sought { IsSought bar.now.x0 self.old.pieces.items self.old.below.items result }
    {
        for k in self.passed..self.below.len() {
            let number = self.below[k];
            if bar.x0 <= self.pieces[number].x0 {
                self.passed = k;
                return number;
            }
        }
        self.passed = self.below.len();
        self.pieces.len()
    }

    /// Adds a bar of the band, to the piece that it stands on where that has the same columns.
    fn put(&mut self, bar: Rect) -> Result<(), AllocError>
        requires solid { IsSolid bar }
        requires front { IsFront bar.y0 bar.y1 bar.x0 self.old }
        ensures adds { OnOk result (Adds bar self.old.pieces.items self.new.pieces.items) }
        ensures front { OnOk result ((x : ℤ) → bar.x1 <ℤ x → IsFront bar.y0 bar.y1 x self.new) }
    {
        let below = self.seek(&bar);
        let number = put_at(&mut self.pieces, below, bar)?;
        self.here.push(number)?;
        Ok(())
    }

    /// Goes on to the next band.
    fn rise(&mut self)
        ensures pieces { self.new.pieces.items ≡ self.old.pieces.items }
        ensures below { self.new.below.items ≡ self.old.here.items }
        ensures passed { self.new.passed ≡ 0 }
        ensures here { self.new.here.items ≡ [] }
    {
        mem::swap(&mut self.below, &mut self.here);
        self.here.clear();
        self.passed = 0;
    }

    /// Adds columns `from` to `to - 1` of a bar, where there are any.
    fn put_columns(&mut self, bar: &Rect, from: i32, to: i32) -> Result<(), AllocError>
        requires tall { bar.now.y0 <ℤ bar.now.y1 }
        requires front { IsFront bar.now.y0 bar.now.y1 from self.old }
        ensures adds { OnOk result (Adds (columns_of bar.now from to) self.old.pieces.items self.new.pieces.items) }
        ensures front { OnOk result ((x : ℤ) → IsFront bar.now.y0 bar.now.y1 x self.old → (from <ℤ to → to <ℤ x) → IsFront bar.now.y0 bar.now.y1 x self.new) }
    {
        if to <= from {
            return Ok(());
        }
        self.put(Rect {
            x0: from,
            y0: bar.y0,
            x1: to,
            y1: bar.y1,
        })?;
        Ok(())
    }

    /// Adds what gaps, which go by left column, leave of a bar. Gives how far they are passed then.
    fn put_without(
        &mut self,
        bar: &Rect,
        gaps: &[Rect],
        passed: Passed,
    ) -> Result<Passed, AllocError>
        requires solid { IsSolid bar.now }
        requires rise { LeftsRise gaps.now }
        requires across { (r : Rect) → Contains gaps.now r → IsAcross bar.now.y0 bar.now.y1 r }
        requires passed { ArePassed bar.now gaps.now bar.now.x0 passed.count passed.reach }
        requires front { IsFront bar.now.y0 bar.now.y1 bar.now.x0 self.old }
        ensures adds { OnOk result (AddsWithout bar.now gaps.now self.old.pieces.items self.new.pieces.items) }
        ensures passed { IfOk result (λ next. ArePassed bar.now gaps.now bar.now.x1 next.count next.reach) }
        ensures front { OnOk result ((x : ℤ) → bar.now.x1 <ℤ x → IsFront bar.now.y0 bar.now.y1 x self.new) }
    {
        if gaps.is_empty() {
            self.put(*bar)?;
            return Ok(passed);
        }
        let end = count_left(gaps, passed.count, bar.x1);
        let mut x = bar.x0.max(passed.reach);
        for i in passed.count..end {
            self.put_columns(bar, x, gaps[i].x0)?;
            x = x.max(gaps[i].x1);
        }
        self.put_columns(bar, x, bar.x1)?;
        Ok(Passed {
            count: end,
            reach: x,
        })
    }

    /// Goes on to the band of rows `low` to `high - 1`, and adds the squares that gaps leave of rectangles there. All have all these rows, and both lists go by left column.
    fn put_band(
        &mut self,
        active: &[Rect],
        gaps: &[Rect],
        low: i32,
        high: i32,
    ) -> Result<(), AllocError>
        requires order { low <ℤ high }
        requires rise { LeftsRise active.now }
        requires across { (r : Rect) → Contains active.now r → IsAcross low high r }
        requires gaps_rise { LeftsRise gaps.now }
        requires gaps_across { (r : Rect) → Contains gaps.now r → IsAcross low high r }
        requires below { AreUpTo low self.old.pieces.items self.old.here.items }
        ensures adds { OnOk result (AddsBand low high active.now gaps.now self.old.pieces.items self.new.pieces.items) }
        ensures here { OnOk result (AreUpTo high self.new.pieces.items self.new.here.items) }
    {
        self.rise();
        if active.is_empty() {
            return Ok(());
        }
        let mut bar = bar_of(&active[0], low, high);
        let mut passed = Passed {
            count: 0,
            reach: bar.x0,
        };
        for i in 1..active.len() {
            if is_right(&bar, &active[i]) {
                passed = self.put_without(&bar, gaps, passed)?;
                bar = bar_of(&active[i], low, high);
            } else {
                bar = widened(bar, &active[i]);
            }
        }
        self.put_without(&bar, gaps, passed)?;
        Ok(())
    }
}

/// A row that all rectangles end at or below.
fn top_of(rects: &[Rect]) -> i32
    ensures { (r : Rect) → Contains rects.now r → r.y1 ≤ℤ result }
{
    let mut top = i32::MIN;
    for r in rects {
        top = top.max(r.y1);
    }
    top
}

/// The sweep, as far as it has come.
#[derive(Drop)]
struct Sweep {
    front: Front,
    /// The rectangles that have squares in the band, and the holes that do.
    bars: Active,
    gaps: Active,
}

impl Sweep {
    /// None of so many rectangles, as below all rows.
    fn new(alloc: Global, count: usize) -> Result<Sweep, AllocError>
        ensures { IfOk result IsUnswept }
    {
        let front = Front {
            pieces: Vec::with_capacity(alloc, count)?,
            below: Vec::new(alloc),
            passed: 0,
            here: Vec::new(alloc),
        };
        Ok(Sweep {
            front,
            bars: Active::new(alloc),
            gaps: Active::new(alloc),
        })
    }

    /// Sweeps the band that begins in row `low`. Gives the row, up to `top`, in which the next one begins.
    fn sweep_band(
        &mut self,
        rects: &[Rect],
        holes: &[Rect],
        low: i32,
        top: i32,
    ) -> Result<i32, AllocError>
        requires order { low <ℤ top }
        requires rects { CornersRise rects.now }
        requires holes { CornersRise holes.now }
        requires swept { IsSweptTo low rects.now holes.now self.old }
        ensures above { IfOk result (λ high. low <ℤ high) }
        ensures below { IfOk result (λ high. high ≤ℤ top) }
        ensures swept { IfOk result (λ high. IsSweptTo high rects.now holes.now self.new) }
    {
        self.bars.begin(rects, low)?;
        self.gaps.begin(holes, low)?;
        let end = self.bars.end(rects, low, top);
        let high = self.gaps.end(holes, low, end);
        self.front
            .put_band(&self.bars.rects, &self.gaps.rects, low, high)?;
        Ok(high)
    }
}

/// The canonical slabs of the squares that rectangles have and no hole has, with room for more, or none where too many of both lie side by side. Both lists go by first row and may overlap.
fn pieces_upward(
    alloc: Global,
    rects: &[Rect],
    holes: &[Rect],
) -> Result<Option<Vec<Rect>>, AllocError>
    requires rects { CornersRise rects.now }
    requires holes { CornersRise holes.now }
    ensures { IfOk result (λ found. IfSome found (λ v. AreSlabsOf (Left rects.now holes.now) v.items)) }
{
    let mut sweep = Sweep::new(alloc, rects.len())?;
    if rects.is_empty() {
        return Ok(Some(sweep.front.pieces));
    }
    let most = rects.len().saturating_add(holes.len());
    let mut steps: usize = 0;
    let mut low = rects[0].y0;
    let top = top_of(rects);
    while low < top {
        low = sweep.sweep_band(rects, holes, low, top)?;
        steps = steps
            .saturating_add(sweep.bars.rects.len())
            .saturating_add(sweep.gaps.rects.len());
        if steps / IN_BANDS > most.saturating_add(sweep.front.pieces.len()) {
            return Ok(None);
        }
    }
    Ok(Some(sweep.front.pieces))
}

/// The canonical slabs of the squares that rectangles have and no hole has, or none where too many of both lie side by side. Both lists go by first row and may overlap.
pub fn slabs_upward_without(
    alloc: Global,
    rects: &[Rect],
    holes: &[Rect],
) -> Result<Option<Vec<Rect>>, AllocError>
    requires rects { CornersRise rects.now }
    requires holes { CornersRise holes.now }
    ensures { IfOk result (λ found. IfSome found (λ v. AreSlabsOf (λ p. Covers rects.now p × ¬ Covers holes.now p) v.items)) }
{
    match pieces_upward(alloc, rects, holes)? {
        None => Ok(None),
        Some(mut slabs) => {
            slabs.shrink_to_fit();
            Ok(Some(slabs))
        }
    }
}

/// The canonical slabs of rectangles, which go by first row and may overlap, or none where too many of them lie side by side.
pub fn slabs_upward(alloc: Global, rects: &[Rect]) -> Result<Option<Vec<Rect>>, AllocError>
    requires { CornersRise rects.now }
    ensures { IfOk result (λ found. IfSome found (λ v. AreSlabsOf (Covers rects.now) v.items)) }
{
    slabs_upward_without(alloc, rects, &[])
}
