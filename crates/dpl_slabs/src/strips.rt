//! The slabs of rectangles, strip by strip of rows.
ghost use Rattle.std.specs.Prelude.{ℕ, ◌<◌, ◌≤◌, IfOk, OnOk, length, take, drop};
ghost use Rattle.std.specs.List.Sorted.{IsPermutation};
ghost use Rattle.dpl_spec_split.specs.Squares.{Covers};
ghost use Rattle.dpl_spec_split.specs.Slabs.{AreSlabsOf, IsCanonical};
ghost use Rattle.dpl_spec_split.specs.Loops.{farthest, AreRectsWithin};
ghost use Rattle.dpl_order.specs.Orders.{CornersRise};
ghost use Rattle.dpl_slabs.specs.Cells.{transposed_rects};
ghost use Rattle.dpl_slabs.specs.Strips.{LieBelow, AddsStrip};

use crate::blocks::{has_open_column, has_tall_strip, slabs_of_blocks};
use crate::combine::combine_without;
use crate::made::Slicing;
use crate::row::{is_row, slabs_of_row};
use crate::slices::sliced;
use crate::swept::sweep_strips;
use dpl_base::{Rect, transpose_all};
use dpl_order::{slabs_of, sort_by_corner};
use dpl_upward::slabs_upward;
use std::alloc::{AllocError, Global};

/// How many rectangles, which go by first row, are in the lowest strip: a row lies between them and all others, and between no fewer and the others.
pub fn strip_length(rects: &[Rect]) -> usize
    requires some { 0 < length rects.now }
    requires rise { CornersRise rects.now }
    ensures some { 0 < result }
    ensures within { result ≤ length rects.now }
    ensures below { LieBelow (take result rects.now) (drop result rects.now) }
    ensures least { (n : ℕ) → 0 < n → n < result → ¬ LieBelow (take n rects.now) (drop n rects.now) }
{
    let mut top = rects[0].y1;
    for i in 1..rects.len() {
        if top < rects[i].y0 {
            return i;
        }
        top = top.max(rects[i].y1);
    }
    rects.len()
}

/// The slabs of a strip: bars of one row are put together by column, all else is swept.
fn slabs_of_strip<S: Slicing>(
    alloc: Global,
    slicing: &S,
    strip: &[Rect],
) -> Result<Vec<Rect>, AllocError>
    requires ready { S.ready }
    requires some { 0 < length strip.now }
    requires rise { CornersRise strip.now }
    requires within { AreRectsWithin farthest strip.now }
    ensures slabs { IfOk result (λ v. AreSlabsOf (Covers strip.now) v.items) }
    ensures within { IfOk result (λ v. AreRectsWithin farthest v.items) }
{
    if is_row(strip) {
        return slabs_of_row(alloc, strip);
    }
    if let Some(pieces) = sliced(alloc, slicing, strip, &[])? {
        return Ok(slabs_of(pieces));
    }
    if let Some(slabs) = slabs_upward(alloc, strip)? {
        return Ok(slabs);
    }
    combine_without(alloc, strip, &[])
}

/// Adds the slabs of a strip that lies above all slabs.
pub fn add_strip<S: Slicing>(
    alloc: Global,
    slicing: &S,
    slabs: &mut Vec<Rect>,
    strip: &[Rect],
) -> Result<(), AllocError>
    requires ready { S.ready }
    requires some { 0 < length strip.now }
    requires rise { CornersRise strip.now }
    requires canonical { IsCanonical slabs.old.items }
    requires below { LieBelow slabs.old.items strip.now }
    requires within { AreRectsWithin farthest strip.now }
    ensures { OnOk result (AddsStrip (Covers strip.now) slabs.old.items slabs.new.items strip.now) }
{
    let more = slabs_of_strip(alloc, slicing, strip)?;
    slabs.extend_from_slice(&more)?;
    Ok(())
}

/// The canonical slabs of rectangles, which go by first row and may overlap, strip by strip.
pub fn slabs_by_rows<S: Slicing>(
    alloc: Global,
    slicing: &S,
    rects: &[Rect],
) -> Result<Vec<Rect>, AllocError>
    requires ready { S.ready }
    requires within { AreRectsWithin farthest rects.now }
    requires rise { CornersRise rects.now }
    ensures slabs { IfOk result (λ v. AreSlabsOf (Covers rects.now) v.items) }
    ensures within { IfOk result (λ v. AreRectsWithin farthest v.items) }
{
    let made = slicing.strips(alloc, rects)?;
    let swept = sweep_strips(alloc, slicing, made, rects, 0, rects.len())?;
    Ok(swept.slabs)
}

/// Transposes each of the rectangles where it stands, and sorts them by first row, then by left column.
fn transpose_and_sort(rects: &mut Vec<Rect>)
    ensures same { IsPermutation (transposed_rects rects.old.items) rects.new.items }
    ensures rise { CornersRise rects.new.items }
{
    transpose_all(rects);
    sort_by_corner(rects);
}

/// The canonical slabs of rectangles in any order, block by block of columns. They are transposed where they stand, each block too, so that there is one list of them.
fn slabs_by_blocks<S: Slicing>(
    alloc: Global,
    slicing: &S,
    rects: Vec<Rect>,
) -> Result<Vec<Rect>, AllocError>
    requires ready { S.ready }
    requires within { AreRectsWithin farthest rects.items }
    ensures slabs { IfOk result (λ v. AreSlabsOf (Covers rects.items) v.items) }
    ensures within { IfOk result (λ v. AreRectsWithin farthest v.items) }
{
    let mut transposed = rects;
    transpose_and_sort(&mut transposed);
    let mut slabs = slabs_of_blocks(alloc, slicing, &mut transposed)?;
    drop(transposed);
    slabs.shrink_to_fit();
    sort_by_corner(&mut slabs);
    Ok(slabs)
}

/// The canonical slabs of rectangles, in any order, that may overlap: block by block of columns where strips of rows would be tall and a column seems to lie between blocks.
pub fn slabs_of_rects<S: Slicing>(
    alloc: Global,
    slicing: &S,
    rects: Vec<Rect>,
) -> Result<Vec<Rect>, AllocError>
    requires ready { S.ready }
    requires within { AreRectsWithin farthest rects.items }
    ensures slabs { IfOk result (λ v. AreSlabsOf (Covers rects.items) v.items) }
    ensures within { IfOk result (λ v. AreRectsWithin farthest v.items) }
{
    let mut rects = rects;
    sort_by_corner(&mut rects);
    if has_tall_strip(&rects) && has_open_column(&rects) {
        return slabs_by_blocks(alloc, slicing, rects);
    }
    slabs_by_rows(alloc, slicing, &rects)
}
