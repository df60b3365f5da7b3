//! Two sets in one, joint strip by joint strip of rows.
ghost use Rattle.std.specs.Prelude.{◌+◌, ◌<◌, ◌≤ℤ◌, ◌++◌, IfOk, IfSome, OnOk, IsNone, length, slice_index_or};
ghost use Rattle.std.specs.List.{Contains};
ghost use Rattle.dpl_spec_split.specs.declared.Rect.{Rect};
ghost use Rattle.dpl_spec_split.specs.Slabs.{AreSlabsOf, IsCanonical};
ghost use Rattle.dpl_order.specs.Orders.{CornersRise};
ghost use Rattle.dpl_spec_split.specs.Loops.{farthest, AreRectsWithin};
ghost use Rattle.dpl_slabs.specs.Cells.{Chosen};
ghost use Rattle.dpl_slabs.specs.Strips.{LieBelow, AddsStrip};
ghost use Rattle.dpl_slabs.specs.Joints.{IsRaised, BeginAbove, IsJointStrip};

use crate::combine::combine;
use dpl_base::Rect;
use dpl_sweep::Rule;
use std::alloc::{AllocError, Global};

/// The first row of the lowest rectangle of two lists that go by first row.
fn lowest_row(first: &[Rect], second: &[Rect]) -> i32
    requires { 0 < length first.now + length second.now }
    ensures some { (r : Rect) × Contains (first.now ++ second.now) r × (r.y0 ≤ℤ result) }
    ensures first { (d : Rect) → 0 < length first.now → result ≤ℤ (slice_index_or first.now 0 d).y0 }
    ensures second { (d : Rect) → 0 < length second.now → result ≤ℤ (slice_index_or second.now 0 d).y0 }
{
    if second.is_empty() {
        return first[0].y0;
    }
    if first.is_empty() {
        return second[0].y0;
    }
    first[0].y0.min(second[0].y0)
}

/// The top of a strip with the `n`-th rectangle of a list, if that begins no higher than it. All later ones begin no lower.
fn raised(rects: &[Rect], n: usize, top: i32) -> Option<i32>
    requires { CornersRise rects.now }
    ensures none { IsNone result → BeginAbove top n rects.now }
    ensures some { IfSome result (λ new. IsRaised rects.now n top new) }
{
    if n >= rects.len() {
        return None;
    }
    if top < rects[n].y0 {
        return None;
    }
    Some(top.max(rects[n].y1))
}

/// How many rectangles of two lists, which go by first row, are in the lowest joint strip: a row lies between them and all others of both, and where all have squares, between no fewer and the others.
fn joint_strip(first: &[Rect], second: &[Rect]) -> (usize, usize)
    requires some { 0 < length first.now + length second.now }
    requires first { CornersRise first.now }
    requires second { CornersRise second.now }
    ensures { IsJointStrip first.now second.now result.0 result.1 }
{
    let (mut n, mut m) = (0, 0);
    let mut top = lowest_row(first, second);
    loop {
        if let Some(row) = raised(first, n, top) {
            top = row;
            n += 1;
            continue;
        }
        let Some(row) = raised(second, m, top) else {
            return (n, m);
        };
        top = row;
        m += 1;
    }
}

/// Adds the slabs of a joint strip that lies above all slabs. `Both` and `Minus` need no sweep where one of the lists is empty.
fn add_joint(
    alloc: Global,
    slabs: &mut Vec<Rect>,
    first: &[Rect],
    second: &[Rect],
    rule: Rule,
) -> Result<(), AllocError>
    requires first { IsCanonical first.now }
    requires canonical { IsCanonical slabs.old.items }
    requires below { LieBelow slabs.old.items (first.now ++ second.now) }
    requires within { AreRectsWithin farthest (first.now ++ second.now) }
    ensures { OnOk result (AddsStrip (Chosen rule first.now second.now) slabs.old.items slabs.new.items (first.now ++ second.now)) }
{
    if first.is_empty() || second.is_empty() {
        match rule {
            Rule::Both => return Ok(()),
            Rule::Minus => {
                slabs.extend_from_slice(first)?;
                return Ok(());
            }
            Rule::Either => {}
        }
    }
    let more = combine(alloc, first, second, rule)?;
    slabs.extend_from_slice(&more)?;
    Ok(())
}

/// The slabs of the squares of two lists of canonical slabs that the rule takes, joint strip by joint strip.
pub fn combine_by_rows(
    alloc: Global,
    first: &[Rect],
    second: &[Rect],
    rule: Rule,
) -> Result<Vec<Rect>, AllocError>
    requires first { IsCanonical first.now }
    requires second { IsCanonical second.now }
    requires first_within { AreRectsWithin farthest first.now }
    requires second_within { AreRectsWithin farthest second.now }
    ensures slabs { IfOk result (λ v. AreSlabsOf (Chosen rule first.now second.now) v.items) }
    ensures within { IfOk result (λ v. AreRectsWithin farthest v.items) }
{
    let mut slabs = Vec::new(alloc);
    let (mut first_rest, mut second_rest) = (first, second);
    while !first_rest.is_empty() || !second_rest.is_empty() {
        let (n, m) = joint_strip(first_rest, second_rest);
        let (first_strip, first_above) = first_rest.split_at(n);
        let (second_strip, second_above) = second_rest.split_at(m);
        add_joint(alloc, &mut slabs, first_strip, second_strip, rule)?;
        first_rest = first_above;
        second_rest = second_above;
    }
    Ok(slabs)
}
