//! Whether the owners of items go on past the items' ends.
ghost use Rattle.std.specs.Prelude.{◌≡◌, ◌≢◌, ℕ, ◌<◌, ◌≤◌, ◌⊎◌, ◌↔◌, true, IsTrue, IfSome, IfOk, length};
ghost use Rattle.dpl_join.specs.Pairs.{item_at};
ghost use Rattle.dpl_shade.specs.Ends.{AreEnds, AreMarkedFrom, AreMarkedIfLive, AreSound, HasLive, IsFirstOn, IsMarked, IsMore, IsOn, IsPart, Meet, comes_before, ends_at};
ghost use Rattle.dpl_shade.specs.Items.{AreInOrder, AreOwnedWithin, OwnersRise};

use dpl_base::Rect;
use dpl_join::Item;
use std::alloc::{AllocError, Global};

/// Whether the item's owner has a square in the row below the item, and in the row above it, at most one column beside it.
#[derive(Clone, Copy, Drop)]
pub struct Ends {
    pub below: bool,
    pub above: bool,
}

/// Whether `over` begins where `under` ends, and they share at least a corner.
fn meet(under: &Rect, over: &Rect) -> bool
    ensures { IsTrue result ↔ Meet under.now over.now }
{
    if over.y0 != under.y1 {
        return false;
    }
    if under.x1 < over.x0 {
        return false;
    }
    if over.x1 < under.x0 {
        return false;
    }
    true
}

/// Whether `r` begins below the end of the slab, or at it and left of its columns, with a column between them.
fn comes_before(slab: &Rect, r: &Rect) -> bool
    ensures { result ≡ comes_before slab.now r.now }
{
    r.y0 < slab.y1 || (r.y0 == slab.y1 && r.x1 < slab.x0)
}

/// How many items are looked at one by one for the first that may meet another from above.
const NEXT: usize = 8;

/// That item, where it is one of the next few from item `near` on.
fn next_on(items: &[Item], n: usize, end: usize, near: usize) -> Option<usize>
    requires part { IsPart items.now n end }
    requires order { AreInOrder items.now }
    requires within { AreOwnedWithin items.now }
    ensures { IfSome result (IsFirstOn items.now n end) }
{
    let slab = items[n].rect;
    let start = near.max(n + 1);
    if end <= start {
        return None;
    }
    if !comes_before(&slab, &items[start - 1].rect) {
        return None;
    }
    let stop = end.min(start.saturating_add(NEXT));
    for k in start..stop {
        if !comes_before(&slab, &items[k].rect) {
            return Some(k);
        }
    }
    None
}

/// The first item behind item `n` and before item `end` that may meet it from above. It is mostly one of the next few from item `near` on, where that of item `n - 1` was.
fn first_on(items: &[Item], n: usize, end: usize, near: usize) -> usize
    requires part { IsPart items.now n end }
    requires order { AreInOrder items.now }
    requires within { AreOwnedWithin items.now }
    ensures { IsFirstOn items.now n end result }
{
    if let Some(first) = next_on(items, n, end, near) {
        return first;
    }
    let slab = items[n].rect;
    let behind = &items[n + 1..end];
    n + 1 + behind.partition_point(|item| comes_before(&slab, &item.rect))
}

/// Marks that item `k` lies on item `n`.
fn mark(ends: &mut [Ends], n: usize, k: usize)
    requires under { n < length ends.old }
    requires over { k < length ends.old }
    ensures sized { length ends.new ≡ length ends.old }
    ensures above { (m : ℕ) → IsTrue (ends_at ends.new m).above ↔ (IsTrue (ends_at ends.old m).above ⊎ (m ≡ n)) }
    ensures below { (m : ℕ) → IsTrue (ends_at ends.new m).below ↔ (IsTrue (ends_at ends.old m).below ⊎ (m ≡ k)) }
{
    ends[n].above = true;
    ends[k].below = true;
}

/// Marks what lies on item `n`, whose first one is sought near item `near`, and gives the number of that. The items of its owner that follow it end before item `end`.
fn mark_item(ends: &mut [Ends], items: &[Item], n: usize, end: usize, near: usize) -> usize
    requires part { IsPart items.now n end }
    requires rise { OwnersRise items.now }
    requires order { AreInOrder items.now }
    requires within { AreOwnedWithin items.now }
    requires sound { AreSound items.now ends.old }
    ensures sound { AreSound items.now ends.new }
    ensures more { IsMore ends.old ends.new }
    ensures all { (k : ℕ) → IsOn items.now n k → IsMarked ends.new n k }
{
    let first = first_on(items, n, end, near);
    for k in first..end {
        if !meet(&items[n].rect, &items[k].rect) {
            return first;
        }
        mark(ends, n, k);
    }
    first
}

/// Marks what lies on the items of an owner, from item `start` up to but not item `end`.
fn mark_part(ends: &mut [Ends], items: &[Item], start: usize, end: usize)
    requires part { IsPart items.now start end }
    requires rise { OwnersRise items.now }
    requires order { AreInOrder items.now }
    requires within { AreOwnedWithin items.now }
    requires sound { AreSound items.now ends.old }
    ensures sound { AreSound items.now ends.new }
    ensures more { IsMore ends.old ends.new }
    ensures all { AreMarkedFrom items.now start end ends.new }
{
    let mut near = start;
    for n in start..end {
        near = mark_item(ends, items, n, end, near);
    }
}

/// The number behind the last item of the owner of item `start`.
fn part_end(items: &[Item], start: usize) -> usize
    requires { start < length items.now }
    ensures { IsPart items.now start result }
{
    for k in start + 1..items.len() {
        if items[k].owner != items[start].owner {
            return k;
        }
    }
    items.len()
}

/// Whether an item from number `start` up to but not `end` isn't dead.
fn has_live(dead: &[bool], start: usize, end: usize) -> bool
    requires { end ≤ length dead.now }
    ensures { IsTrue result ↔ HasLive dead.now start end }
{
    for k in start..end {
        if !dead[k] {
            return true;
        }
    }
    false
}

/// Marks the ends of the items of an owner, from item `start` up to but not item `end`, where one of them isn't dead.
fn mark_live(ends: &mut [Ends], items: &[Item], dead: &[bool], start: usize, end: usize)
    requires part { IsPart items.now start end }
    requires rise { OwnersRise items.now }
    requires order { AreInOrder items.now }
    requires within { AreOwnedWithin items.now }
    requires dead { length dead.now ≡ length items.now }
    requires sound { AreSound items.now ends.old }
    ensures sound { AreSound items.now ends.new }
    ensures more { IsMore ends.old ends.new }
    ensures all { AreMarkedIfLive items.now dead.now start end ends.new }
{
    if !has_live(dead, start, end) {
        return;
    }
    mark_part(ends, items, start, end);
}

/// The ends of the items that aren't dead. Nothing is looked for where all items of an owner are dead. The error: out of memory.
pub fn ends_of(alloc: Global, items: &[Item], dead: &[bool]) -> Result<Vec<Ends>, AllocError>
    requires rise { OwnersRise items.now }
    requires order { AreInOrder items.now }
    requires within { AreOwnedWithin items.now }
    requires dead { length dead.now ≡ length items.now }
    ensures { IfOk result (λ v. AreEnds items.now dead.now v.items) }
{
    let none = Ends {
        below: false,
        above: false,
    };
    let mut ends = vec![in alloc; none; items.len()]?;
    let mut start = 0;
    while start < items.len() {
        let end = part_end(items, start);
        mark_live(&mut ends, items, dead, start, end);
        start = end;
    }
    Ok(ends)
}
