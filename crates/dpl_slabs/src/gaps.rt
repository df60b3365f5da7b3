//! Bars of the same rows with gaps taken out of them, by one walk along the columns.
ghost use Rattle.std.specs.Prelude.{IfOk, OnOk};
ghost use Rattle.std.specs.List.{AllPairs, Contains};
ghost use Rattle.dpl_spec_split.specs.declared.Rect.{Rect};
ghost use Rattle.dpl_spec_split.specs.Slabs.{AreSlabsOf, IsSolid, StandApart};
ghost use Rattle.dpl_slabs.specs.Rows.{AreLevel, AreAllLevel, AreSpaced};
ghost use Rattle.dpl_bars.specs.Alone.{ReachTo};
ghost use Rattle.dpl_slabs.specs.Slices.{Without};
ghost use Rattle.dpl_slabs.specs.Gaps.{AddsColumns, LieBefore, AddsBarWithout};

use dpl_base::Rect;
use std::alloc::{AllocError, Global};

/// Adds columns `from` to `to - 1` of a bar, where there are any.
fn add_columns(left: &mut Vec<Rect>, bar: &Rect, from: i32, to: i32) -> Result<(), AllocError>
    ensures { OnOk result (AddsColumns bar.now from to left.old.items left.new.items) }
{
    if to <= from {
        return Ok(());
    }
    left.push(Rect {
        x0: from,
        y0: bar.y0,
        x1: to,
        y1: bar.y1,
    })?;
    Ok(())
}

/// Adds what gaps leave of a bar, where those before number `from` end left of it. Gives a number before which no gap reaches right of the bar.
fn add_bar_without(
    left: &mut Vec<Rect>,
    bar: &Rect,
    gaps: &[Rect],
    from: usize,
) -> Result<usize, AllocError>
    requires solid { IsSolid bar.now }
    requires gaps { AreSpaced gaps.now }
    requires level { (gap : Rect) → Contains gaps.now gap → AreLevel bar.now gap }
    requires passed { ReachTo gaps.now from bar.now.x0 }
    requires before { LieBefore bar.now bar.now.x0 left.old.items }
    ensures { IfOk result (λ next. AddsBarWithout bar.now gaps.now left.old.items left.new.items next) }
{
    let mut x = bar.x0;
    for at in from..gaps.len() {
        let gap = gaps[at];
        if bar.x1 <= gap.x0 {
            add_columns(left, bar, x, bar.x1)?;
            return Ok(at);
        }
        add_columns(left, bar, x, gap.x0)?;
        x = x.max(gap.x1);
        if bar.x1 <= x {
            return Ok(at);
        }
    }
    add_columns(left, bar, x, bar.x1)?;
    Ok(gaps.len())
}

/// The slabs of what gaps leave of bars, all of the same rows: a column lies between any two.
pub fn bars_without(alloc: Global, bars: Vec<Rect>, gaps: &[Rect]) -> Result<Vec<Rect>, AllocError>
    requires bars { AreSpaced bars.items }
    requires gaps { AreSpaced gaps.now }
    requires level { AreAllLevel bars.items gaps.now }
    ensures slabs { IfOk result (λ v. AreSlabsOf (Without bars.items gaps.now) v.items) }
    ensures apart { IfOk result (λ v. AllPairs StandApart v.items) }
{
    if gaps.is_empty() {
        return Ok(bars);
    }
    let mut left = Vec::with_capacity(alloc, bars.len().saturating_add(gaps.len()))?;
    let mut from = 0;
    for bar in &bars {
        from = add_bar_without(&mut left, bar, gaps, from)?;
    }
    Ok(left)
}
