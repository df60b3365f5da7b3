//! Deals slabs out to components.
ghost use Rattle.std.specs.Prelude.{◌≡◌, ℕ, ◌<◌, ◌≤◌, ◌+◌, ◌∷◌, [], length, OnOk, IfOk};
ghost use Rattle.dpl_spec_split.specs.Squares.{Covers};
ghost use Rattle.dpl_spec_split.specs.Slabs.{IsCanonical, IsSolid};
ghost use Rattle.dpl_spec_split.specs.Loops.{farthest, AreRectsWithin, IsRectWithin};
ghost use Rattle.dpl_spec_split.specs.Components.{AreComponents};
ghost use Rattle.dpl_slabs.specs.Parts.{AreParts};
ghost use Rattle.dpl_feature.specs.Meeting.{AreMet};
ghost use Rattle.dpl_feature.specs.Dealt.{IsDealt};

use dpl_base::Rect;
use dpl_slabs::Slabs;
use std::alloc::{AllocError, Global};

/// For how many slabs each slab's part should have room, where the slab is a root: as many as stand below it in the forest.
fn rooms_of(alloc: Global, parents: &[usize]) -> Result<Vec<u32>, AllocError>
    ensures { IfOk result (λ v. length v.items ≡ length parents.now) }
{
    let mut rooms = vec![in alloc; 1u32; parents.len()]?;
    let mut i = parents.len();
    while i > 0 {
        i -= 1;
        let parent = parents[i];
        if parent < i {
            rooms[parent] = rooms[parent].wrapping_add(rooms[i]);
        }
    }
    Ok(rooms)
}

/// A part with its first slab, and with room for so many.
fn begun(alloc: Global, rect: Rect, room: u32) -> Result<Slabs, AllocError>
    requires solid { IsSolid rect }
    requires within { IsRectWithin farthest rect }
    ensures { IfOk result (λ s. s ≡ rect ∷ []) }
{
    if room <= 1 {
        return Slabs::one(alloc, rect);
    }
    let mut rects = Vec::with_capacity(alloc, room as usize)?;
    rects.push(rect)?;
    Ok(Slabs::of_canonical(rects))
}

/// Puts the next slab into the part of its parent, or into a part of its own, and writes the part's number in place of the parent. A new part gets room for as many slabs as `rooms` tells.
fn deal(
    alloc: Global,
    parts: &mut Vec<Slabs>,
    numbers: &mut [usize],
    rects: &[Rect],
    rooms: &[u32],
    i: usize,
) -> Result<(), AllocError>
    requires inside { i < length rects.now }
    requires rooms { length rooms.now ≡ length rects.now }
    requires canonical { IsCanonical rects.now }
    requires within { AreRectsWithin farthest rects.now }
    requires dealt { IsDealt rects.now i numbers.old parts.old.items }
    ensures { OnOk result (IsDealt rects.now (i + 1) numbers.new parts.new.items) }
{
    let rect = rects[i];
    let parent = numbers[i];
    if parent == i {
        numbers[i] = parts.len();
        let part = begun(alloc, rect, rooms[i])?;
        parts.push(part)?;
        return Ok(());
    }
    let number = numbers[parent];
    numbers[i] = number;
    parts[number].add(rect)?;
    Ok(())
}

/// The components, one for each root.
pub fn split(alloc: Global, rects: &[Rect], parents: Vec<usize>) -> Result<Vec<Slabs>, AllocError>
    requires canonical { IsCanonical rects.now }
    requires within { AreRectsWithin farthest rects.now }
    requires met { AreMet rects.now parents.items }
    ensures components { IfOk result (λ v. AreComponents (Covers rects.now) v.items) }
    ensures parts { IfOk result (λ v. AreParts v.items) }
{
    let roots = parents
        .iter()
        .enumerate()
        .filter(|(i, parent)| *i == **parent)
        .count();
    let mut parts = Vec::with_capacity(alloc, roots)?;
    let rooms = rooms_of(alloc, &parents)?;
    let mut numbers = parents;
    for i in 0..rects.len() {
        deal(alloc, &mut parts, &mut numbers, rects, &rooms, i)?;
    }
    Ok(parts)
}
