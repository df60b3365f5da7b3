//! The slabs of bars side by side in one row.
ghost use Rattle.std.specs.Prelude.{◌<◌, ◌↔◌, IfOk, IsTrue, length};
ghost use Rattle.dpl_spec_split.specs.Squares.{Covers};
ghost use Rattle.dpl_spec_split.specs.Slabs.{AreSlabsOf, IsSolid};
ghost use Rattle.dpl_order.specs.Orders.{CornersRise};
ghost use Rattle.dpl_slabs.specs.Rows.{AreLevel, AreAllLevel, AreSpaced, IsBarJoined, IsRow};

use dpl_base::Rect;
use std::alloc::{AllocError, Global};

/// Whether the rectangle has squares, in the same rows as the first one.
fn is_beside(first: &Rect, r: &Rect) -> bool
    ensures { IsTrue result ↔ (IsSolid r.now × AreLevel first.now r.now) }
{
    if r.y0 != first.y0 {
        return false;
    }
    if r.y1 != first.y1 {
        return false;
    }
    r.x0 < r.x1 && r.y0 < r.y1
}

/// Whether all rectangles have squares, in the same rows.
pub fn is_row(rects: &[Rect]) -> bool
    requires { 0 < length rects.now }
    ensures { IsTrue result ↔ IsRow rects.now }
{
    for i in 0..rects.len() {
        if !is_beside(&rects[0], &rects[i]) {
            return false;
        }
    }
    true
}

/// Makes the last slab wider by a bar that meets or touches it, or puts the bar after it.
fn add_bar(done: &mut Vec<Rect>, last: Rect, bar: &Rect) -> Result<Rect, AllocError>
    ensures { IfOk result (λ next. IsBarJoined done.old.items last bar.now done.new.items next) }
{
    if last.x1 < bar.x0 {
        done.push(last)?;
        return Ok(*bar);
    }
    Ok(Rect {
        x0: last.x0,
        y0: last.y0,
        x1: last.x1.max(bar.x1),
        y1: last.y1,
    })
}

/// Whether a column lies between each bar of one row and the next one, which begins right of it.
pub fn is_spaced(row: &[Rect]) -> bool
    requires { IsRow row.now }
    ensures { IsTrue result ↔ AreSpaced row.now }
{
    for i in 1..row.len() {
        if row[i].x0 <= row[i - 1].x1 {
            return false;
        }
    }
    true
}

/// The canonical slabs of bars of one row, which go by left column: a column lies between any two.
pub fn slabs_of_row(alloc: Global, row: &[Rect]) -> Result<Vec<Rect>, AllocError>
    requires some { 0 < length row.now }
    requires row { IsRow row.now }
    requires rise { CornersRise row.now }
    ensures slabs { IfOk result (λ v. AreSlabsOf (Covers row.now) v.items) }
    ensures spaced { IfOk result (λ v. AreSpaced v.items) }
    ensures level { IfOk result (λ v. AreAllLevel v.items row.now) }
{
    let mut done = Vec::with_capacity(alloc, row.len())?;
    let mut last = row[0];
    for i in 1..row.len() {
        last = add_bar(&mut done, last, &row[i])?;
    }
    done.push(last)?;
    Ok(done)
}
