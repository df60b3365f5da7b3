//! The columns of all parts, made by workers.
ghost use Rattle.std.specs.Prelude.{◌≡◌, ◌+◌, ◌<◌, ◌≤◌, length, IfOk};
ghost use Rattle.dpl_zone.specs.Columns.{AreColumns, AreSetsBetween};
ghost use Rattle.dpl_zone.specs.Owned.{transposed_parts};

use crate::items::{add_owner, columns_between};
use dpl_join::Item;
use dpl_slabs::Slabs;
use std::alloc::{AllocError, Global};
use std::thread::{Threads, join};

/// How many slabs parts have at least, where workers share them. The columns of fewer are made while a thread is.
const MANY: usize = 8192;

/// How many slabs parts have.
fn slab_count(parts: &[Slabs]) -> usize {
    let mut count: usize = 0;
    for part in parts {
        count = count.saturating_add(part.rects().len());
    }
    count
}

/// A number of a part from `start` on, up to `end`, before which there are about so many slabs, but one part at least.
fn part_behind(parts: &[Slabs], start: usize, end: usize, slabs: usize) -> usize
    requires range { start ≤ end }
    requires known { end ≤ length parts.now }
    ensures from { start ≤ result }
    ensures to { result ≤ end }
{
    let mut left = slabs;
    for k in start..end {
        let own = parts[k].rects().len();
        if left < own {
            return k.max(start + 1);
        }
        left -= own;
    }
    end
}

/// The columns of one part, made by so many workers.
fn columns_of_part<R: Threads + Sync>(
    rt: &R,
    alloc: Global,
    parts: &[Slabs],
    number: usize,
    workers: u32,
) -> Result<Vec<Item>, AllocError>
    requires { number < length parts.now }
    ensures { IfOk result (λ v. AreSetsBetween (transposed_parts parts.now) number (number + 1) v.items) }
{
    let columns = parts[number].columns_by(rt, alloc, workers)?;
    let mut items = Vec::new(alloc);
    add_owner(&mut items, &columns, number)?;
    Ok(items)
}

/// The columns of the parts from number `start` up to but not `end`, as `columns_between` makes them, by so many workers. They share the parts by their slabs; one part alone is shared too.
#[cycle(columns)]
fn columns_between_by<R: Threads + Sync>(
    rt: &R,
    alloc: Global,
    parts: &[Slabs],
    start: usize,
    end: usize,
    workers: u32,
) -> Result<Vec<Item>, AllocError>
    requires range { start ≤ end }
    requires known { end ≤ length parts.now }
    requires workers { 1 ≤ workers }
    ensures { IfOk result (λ v. AreSetsBetween (transposed_parts parts.now) start end v.items) }
{
    let slabs = slab_count(&parts[start..end]);
    if workers == 1 || slabs < MANY {
        return columns_between(alloc, parts, start, end);
    }
    if end - start == 1 {
        return columns_of_part(rt, alloc, parts, start, workers);
    }
    let half = workers / 2;
    let others = workers - half;
    let share = (slabs / workers as usize).saturating_mul(half as usize);
    let middle = part_behind(parts, start, end, share);
    let front = || -> Result<Vec<Item>, AllocError>
        requires { (start ≤ middle) × (middle ≤ length parts.now) × (1 ≤ half) }
        ensures { IfOk result (λ v. AreSetsBetween (transposed_parts parts.entry.now) start middle v.items) }
    { columns_between_by(rt, alloc, parts, start, middle, half) };
    let back = || -> Result<Vec<Item>, AllocError>
        requires { (middle ≤ end) × (end ≤ length parts.now) × (1 ≤ others) }
        ensures { IfOk result (λ v. AreSetsBetween (transposed_parts parts.entry.now) middle end v.items) }
    { columns_between_by(rt, alloc, parts, middle, end, others) };
    let (first, second) = join(rt, front, back);
    let mut items = first?;
    let mut rest = second?;
    items.append(&mut rest)?;
    Ok(items)
}

/// The columns of all parts, as `columns_of_parts` makes them, by so many workers, each in a thread of its own, if one can be made.
pub(crate) fn columns_of_parts_by<R: Threads + Sync>(
    rt: &R,
    alloc: Global,
    parts: &[Slabs],
    workers: u32,
) -> Result<Vec<Item>, AllocError>
    requires { 1 ≤ workers }
    ensures { IfOk result (λ v. AreColumns parts.now v.items) }
{
    columns_between_by(rt, alloc, parts, 0, parts.len(), workers)
}
