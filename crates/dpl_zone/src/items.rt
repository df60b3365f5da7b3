//! The slabs of all parts, or their columns, each with the number of its part.
ghost use Rattle.std.specs.Prelude.{◌≡◌, ◌++◌, ◌≤◌, map, length, IfOk, OnOk};
ghost use Rattle.dpl_shade.specs.Items.{AreInOrder, OwnersRise};
ghost use Rattle.dpl_zone.specs.Columns.{AreColumns, AreSetsBetween};
ghost use Rattle.dpl_zone.specs.Owned.{AreSets, owned_by, transposed_parts};

use dpl_base::{Id, Rect, short_id};
use dpl_join::Item;
use dpl_slabs::Slabs;
use std::alloc::{AllocError, Global};

/// Adds rectangles of an owner.
fn add_items(items: &mut Vec<Item>, rects: &[Rect], owner: u32) -> Result<(), AllocError>
    ensures { OnOk result (items.new.items ≡ items.old.items ++ map (owned_by owner) rects.now) }
{
    items.reserve(rects.len())?;
    for rect in rects {
        items.push(Item { rect: *rect, owner })?;
    }
    Ok(())
}

/// Adds rectangles of owner `k`. A number of 2^32 or more is refused as out of memory, which so many owners would be.
pub(crate) fn add_owner(items: &mut Vec<Item>, rects: &[Rect], k: usize) -> Result<(), AllocError>
    ensures { OnOk result (items.new.items ≡ items.old.items ++ map (owned_by k) rects.now) }
{
    let owner = short_id(k as Id)?;
    add_items(items, rects, owner)
}

/// The slabs of all parts.
pub(crate) fn slabs_of_parts(alloc: Global, parts: &[Slabs]) -> Result<Vec<Item>, AllocError>
    ensures sets { IfOk result (λ v. AreSets parts.now v.items) }
    ensures rise { IfOk result (λ v. OwnersRise v.items) }
    ensures order { IfOk result (λ v. AreInOrder v.items) }
{
    let mut items = Vec::new(alloc);
    for k in 0..parts.len() {
        add_owner(&mut items, parts[k].rects(), k)?;
    }
    Ok(items)
}

/// The columns of the parts from number `start` up to but not `end`: the slabs of the transposed parts.
pub(crate) fn columns_between(
    alloc: Global,
    parts: &[Slabs],
    start: usize,
    end: usize,
) -> Result<Vec<Item>, AllocError>
    requires range { start ≤ end }
    requires known { end ≤ length parts.now }
    ensures { IfOk result (λ v. AreSetsBetween (transposed_parts parts.now) start end v.items) }
{
    let mut items = Vec::new(alloc);
    for k in start..end {
        let columns = parts[k].columns(alloc)?;
        add_owner(&mut items, &columns, k)?;
    }
    Ok(items)
}

/// The columns of all parts.
pub(crate) fn columns_of_parts(alloc: Global, parts: &[Slabs]) -> Result<Vec<Item>, AllocError>
    ensures { IfOk result (λ v. AreColumns parts.now v.items) }
{
    columns_between(alloc, parts, 0, parts.len())
}
