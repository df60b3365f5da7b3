//! The slabs of all parts, each with the number of its part.
ghost use Rattle.std.specs.Prelude.{◌≡◌, ◌≤◌, ◌^◌, IfOk, OnOk, IfSome, IsNone};
ghost use Rattle.std.specs.List.{Contains};
ghost use Rattle.dpl_join.specs.declared.items.Item.{Item};
ghost use Rattle.dpl_tile.specs.Adding.{Adds};
ghost use Rattle.dpl_tile.specs.Meetings.{AreItemsOf};

use dpl_base::Rect;
use dpl_join::Item;
use dpl_slabs::Slabs;
use std::alloc::{AllocError, Global};

/// Adds the slabs of a part.
fn add_slabs(items: &mut Vec<Item>, rects: &[Rect], owner: u32) -> Result<(), AllocError>
    ensures { OnOk result (Adds (λ (item : Item). (item.owner ≡ owner) × Contains rects.now item.rect) items.old.items items.new.items) }
{
    items.reserve(rects.len())?;
    for rect in rects {
        items.push(Item { rect: *rect, owner })?;
    }
    Ok(())
}

/// A part's number in 32 bits; none where it doesn't fit.
fn short_number(k: usize) -> Option<u32>
    ensures none { IsNone result → 2 ^ 32 ≤ k }
    ensures some { IfSome result (λ n. n ≡ k) }
{
    match u32::try_from(k) {
        Ok(n) => Some(n),
        Err(_) => None,
    }
}

/// Adds the slabs of part `k`. A number of 2^32 or more is refused as out of memory, which so many parts would be.
fn add_part(items: &mut Vec<Item>, part: &Slabs, k: usize) -> Result<(), AllocError>
    ensures { OnOk result (Adds (λ (item : Item). (item.owner ≡ k) × Contains part.now item.rect) items.old.items items.new.items) }
{
    let Some(owner) = short_number(k) else {
        return Err(AllocError);
    };
    add_slabs(items, part.rects(), owner)?;
    Ok(())
}

/// The slabs of all parts, each with the number of its part.
///
/// The error: out of memory.
pub fn items_of(alloc: Global, parts: &[Slabs]) -> Result<Vec<Item>, AllocError>
    ensures { IfOk result (λ v. AreItemsOf parts.now v.items) }
{
    let mut items = Vec::new(alloc);
    for k in 0..parts.len() {
        add_part(&mut items, &parts[k], k)?;
    }
    Ok(items)
}
