//! The components of a layer, by the parent of each slab.
ghost use Rattle.std.specs.Prelude.{◌≡◌, ◌<◌, ◌+◌, length, OnOk, IfOk};
ghost use Rattle.dpl_spec_split.specs.Squares.{Covers};
ghost use Rattle.dpl_spec_split.specs.Slabs.{IsCanonical};
ghost use Rattle.dpl_spec_split.specs.Loops.{farthest, AreRectsWithin};
ghost use Rattle.dpl_spec_split.specs.Components.{AreComponents};
ghost use Rattle.dpl_feature.specs.Meeting.{AreMet};
ghost use Rattle.dpl_feature.specs.Dealt.{IsDealt};

use dpl_base::Rect;
use dpl_slabs::{Parts, Slabs};
use std::alloc::{AllocError, Global};

/// Puts the next slab into the part of its parent, or into a part of its own, and writes the part's number in place of the parent.
fn deal(
    alloc: Global,
    parts: &mut Vec<Slabs>,
    numbers: &mut [usize],
    rects: &[Rect],
    i: usize,
) -> Result<(), AllocError>
    requires inside { i < length rects.now }
    requires canonical { IsCanonical rects.now }
    requires within { AreRectsWithin farthest rects.now }
    requires dealt { IsDealt rects.now i numbers.old parts.old.items }
    ensures { OnOk result (IsDealt rects.now (i + 1) numbers.new parts.new.items) }
{
    let rect = rects[i];
    let parent = numbers[i];
    if parent == i {
        numbers[i] = parts.len();
        let part = Slabs::one(alloc, rect)?;
        parts.push(part)?;
        return Ok(());
    }
    let number = numbers[parent];
    numbers[i] = number;
    parts[number].add(rect)?;
    Ok(())
}

/// The components, one for each slab that is its own parent.
pub(crate) fn components(
    alloc: Global,
    layer: &Slabs,
    parents: Vec<usize>,
) -> Result<Parts, AllocError>
    requires { AreMet layer.now parents.items }
    ensures { IfOk result (λ parts. AreComponents (Covers layer.now) parts) }
{
    let rects = layer.rects();
    let mut parts = Vec::new(alloc);
    let mut numbers = parents;
    for i in 0..rects.len() {
        deal(alloc, &mut parts, &mut numbers, rects, i)?;
    }
    Ok(Parts::of(parts))
}
