//! One edge's step over all bands.
ghost use Rattle.std.specs.Prelude.{◌≡◌, ◌+◌, ◌<◌, ◌≤◌, ◌^◌, ◌<ℤ◌, ◌≤ℤ◌, ◌⊎◌, ◌↔◌, OnOk, IfOk, IsTrue, IsFalse, unsigned_abs};
ghost use Rattle.dpl_spec_split.specs.declared.Rect.{Rect};
ghost use Rattle.dpl_sweep.specs.declared.bands.Bands.{Bands, One};
ghost use Rattle.dpl_sweep.specs.Rows.{AreRows, IsSmall};
ghost use Rattle.dpl_sweep.specs.Sweeping.{Sweeps};

use crate::balance::{is_mended, join, mended};
use crate::bands::{Bands, Lag, cut_over, follow_both};
use crate::edge::{Edge, Rule};
use crate::run::{Run, moved};
use dpl_spec_split::Rect;
use std::alloc::{AllocError, Global};
use std::mem;

/// A row at which the edge begins or ends, inside a band that it doesn't span.
fn end_inside(edge: &Edge, low: i32, high: i32) -> i32
    requires meets { (low <ℤ edge.now.y1) × (edge.now.y0 <ℤ high) }
    requires part { (edge.now.y0 ≤ℤ low) × (high ≤ℤ edge.now.y1) → ⊥ }
    ensures above { low <ℤ result }
    ensures below { result <ℤ high }
{
    if low < edge.y0 {
        return edge.y0;
    }
    edge.y1
}

/// Whether the edge is beside no row of the band.
pub fn misses(edge: &Edge, low: i32, high: i32) -> bool
    ensures yes { IsTrue result → (edge.now.y1 ≤ℤ low) ⊎ (high ≤ℤ edge.now.y0) }
    ensures no { IsFalse result → (low <ℤ edge.now.y1) × (edge.now.y0 <ℤ high) }
{
    edge.y1 <= low || high <= edge.y0
}

/// Whether the edge is beside all rows of the band.
fn spans(edge: &Edge, low: i32, high: i32) -> bool
    ensures { IsTrue result ↔ ((edge.now.y0 ≤ℤ low) × (high ≤ℤ edge.now.y1)) }
{
    edge.y0 <= low && high <= edge.y1
}

/// The bands of rows of one run when the edge's column is reached.
fn parted(
    alloc: Global,
    run: Run,
    rule: Rule,
    edge: &Edge,
    low: i32,
    high: i32,
    count: usize,
    pieces: &mut Vec<Rect>,
) -> Result<Bands, AllocError>
    requires order { low <ℤ high }
    requires room { count < 2 ^ 62 }
    requires small { (unsigned_abs edge.now.a ≤ 1) × (unsigned_abs edge.now.b ≤ 1) }
    requires rows { AreRows low high edge.now.x (One run) }
    requires sums { IsSmall count (One run) }
    ensures sweeps { IfOk result (λ t. Sweeps rule edge.now low high (One run) t pieces.old.items pieces.new.items) }
    ensures rows { IfOk result (λ t. AreRows low high edge.now.x t) }
    ensures sums { IfOk result (λ t. IsSmall (count + 1) t) }
{
    if misses(edge, low, high) {
        return Ok(Bands::One(run));
    }
    if spans(edge, low, high) {
        let new = moved(run, rule, edge, low, high, pieces)?;
        return Ok(Bands::One(new));
    }
    let row = end_inside(edge, low, high);
    let below = parted(alloc, run, rule, edge, low, row, count, pieces)?;
    let above = parted(alloc, run, rule, edge, row, high, count, pieces)?;
    join(alloc, rule, below, row, above)
}

impl Bands {
    /// Goes on to the edge's column, and past it.
    pub fn sweep(
        &mut self,
        alloc: Global,
        rule: Rule,
        edge: &Edge,
        low: i32,
        high: i32,
        count: usize,
        pieces: &mut Vec<Rect>,
    ) -> Result<(), AllocError>
        requires order { low <ℤ high }
        requires room { count < 2 ^ 62 }
        requires small { (unsigned_abs edge.now.a ≤ 1) × (unsigned_abs edge.now.b ≤ 1) }
        requires rows { AreRows low high edge.now.x self.old }
        requires sums { IsSmall count self.old }
        ensures sweeps { OnOk result (Sweeps rule edge.now low high self.old self.new pieces.old.items pieces.new.items) }
        ensures rows { OnOk result (AreRows low high edge.now.x self.new) }
        ensures sums { OnOk result (IsSmall (count + 1) self.new) }
    {
        if misses(edge, low, high) {
            return Ok(());
        }
        if spans(edge, low, high) && self.is_deep(rule, edge) {
            self.follow(Lag {
                at: edge.x,
                a: edge.a as i64,
            });
            return Ok(());
        }
        match self {
            Bands::One(run) => {
                let run = *run;
                let new = parted(alloc, run, rule, edge, low, high, count, pieces)?;
                *self = new;
                Ok(())
            }
            Bands::Two(below, cut, above) => {
                let row = cut.row;
                let below = below.as_mut();
                let above = above.as_mut();
                follow_both(below, cut.lag, above);
                below.sweep(alloc, rule, edge, low, row, count, pieces)?;
                above.sweep(alloc, rule, edge, row, high, count, pieces)?;
                *cut = cut_over(below, row, above);
                if is_mended(rule, below, above) {
                    return Ok(());
                }
                let swept = mem::replace(self, Bands::One(Run::new()));
                *self = mended(alloc, rule, swept)?;
                Ok(())
            }
        }
    }
}
