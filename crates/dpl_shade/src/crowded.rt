//! The shades of the items of a crowded layer, most of which have no zone, since one near item alone leaves them too few rows.
ghost use Rattle.std.specs.Prelude.{◌≡◌, ◌≢◌, ℕ, ◌<◌, ◌≤◌, IfOk, IsTrue, OnOk, length};
ghost use Rattle.std.specs.List.{Contains};
ghost use Rattle.dpl_join.specs.Pairs.{item_at};
ghost use Rattle.dpl_shade.specs.Items.{AreOwnedWithin};
ghost use Rattle.dpl_shade.specs.Shading.{Handles, HandlesAll, IsMore, IsSound};

use crate::rows::shadow;
use crate::shades::{Shades, add_shade, leaves_few};
use dpl_base::{Id, round_one, short_id};
use dpl_join::Item;
use std::alloc::AllocError;

/// How many items a square with sides of the rule has on average where they are crowded.
const CROWD: u64 = 64;

/// With how many of the list each item is compared first: itself, and those behind it.
const NEXT: usize = 8;

/// For how many items at most all others are gone through.
const MOST: usize = 256;

/// Whether a square with sides of the rule has many items, on average over the rectangle round all of them.
fn are_crowded(items: &[Item], rule: u32) -> bool {
    let mut around = None;
    for item in items {
        around = round_one(around, &item.rect);
    }
    let Some(around) = around else {
        return false;
    };
    let side = rule.max(1) as u64;
    let columns = around.x0.abs_diff(around.x1) as u64 / side + 1;
    let rows = around.y0.abs_diff(around.y1) as u64 / side + 1;
    columns.saturating_mul(rows).saturating_mul(CROWD) < items.len() as u64
}

/// Marks item `n` as dead where item `m`, if it is of another owner, leaves it too few rows for a zone.
fn darken(shades: &mut Shades, items: &[Item], n: usize, m: usize)
    requires corner { shades.old.spacing.corner ≤ shades.old.spacing.rule }
    requires within { AreOwnedWithin items.now }
    requires first { n < length items.now }
    requires second { m < length items.now }
    requires sound { IsSound items.now shades.old }
    ensures sound { IsSound items.now shades.new }
    ensures more { IsMore shades.old shades.new }
{
    let (slab, other) = (items[n], items[m]);
    if slab.owner == other.owner {
        return;
    }
    if let Some(span) = shadow(&slab.rect, &other.rect, shades.spacing) {
        if leaves_few(&slab.rect, &span, shades.overlap) {
            shades.dead[n] = true;
        }
    }
}

/// Marks as dead what item `n` and the next ones leave too few rows of one another.
fn darken_next(shades: &mut Shades, items: &[Item], n: usize)
    requires corner { shades.old.spacing.corner ≤ shades.old.spacing.rule }
    requires within { AreOwnedWithin items.now }
    requires first { n < length items.now }
    requires sound { IsSound items.now shades.old }
    ensures sound { IsSound items.now shades.new }
    ensures more { IsMore shades.old shades.new }
{
    let end = items.len().min(n.saturating_add(NEXT));
    for m in n..end {
        darken(shades, items, n, m);
        darken(shades, items, m, n);
    }
}

/// Marks as dead what items that stand near one another in the list leave too few rows of one another.
fn darken_all(shades: &mut Shades, items: &[Item])
    requires corner { shades.old.spacing.corner ≤ shades.old.spacing.rule }
    requires within { AreOwnedWithin items.now }
    requires sound { IsSound items.now shades.old }
    ensures sound { IsSound items.now shades.new }
    ensures more { IsMore shades.old shades.new }
{
    for n in 0..items.len() {
        darken_next(shades, items, n);
    }
}

/// Whether all items but a few are dead.
fn are_few(shades: &Shades) -> bool {
    let mut count: usize = 0;
    for dead in &shades.dead {
        if !dead {
            count = count.saturating_add(1);
        }
    }
    count <= MOST
}

/// Adds what all items shade of item `n`, until it is dead.
fn add_all(shades: &mut Shades, items: &[Item], n: u32) -> Result<(), AllocError>
    requires corner { shades.old.spacing.corner ≤ shades.old.spacing.rule }
    requires within { AreOwnedWithin items.now }
    requires first { n < length items.now }
    requires sound { IsSound items.now shades.old }
    ensures sound { OnOk result (IsSound items.now shades.new) }
    ensures more { OnOk result (IsMore shades.old shades.new) }
    ensures handles { OnOk result (HandlesAll items.now shades.new n) }
{
    for m in 0..items.len() {
        if shades.dead[n as usize] {
            return Ok(());
        }
        if items[m].owner != items[n as usize].owner {
            add_shade(shades, items, n, m)?;
        }
    }
    Ok(())
}

/// Adds what all items shade of each that isn't dead. As many items as 2^32 or more are refused as out of memory, which so many would be.
fn add_alive(shades: &mut Shades, items: &[Item]) -> Result<(), AllocError>
    requires corner { shades.old.spacing.corner ≤ shades.old.spacing.rule }
    requires within { AreOwnedWithin items.now }
    requires sound { IsSound items.now shades.old }
    ensures sound { OnOk result (IsSound items.now shades.new) }
    ensures more { OnOk result (IsMore shades.old shades.new) }
    ensures handles { OnOk result ((n : ℕ) → n < length items.now → HandlesAll items.now shades.new n) }
{
    for n in 0..items.len() {
        if !shades.dead[n] {
            add_all(shades, items, short_id(n as Id)?)?;
        }
    }
    Ok(())
}

/// Finds all shades of a crowded layer, all items of which but a few have no zone, as is seen from few pairs: each of these few is compared with all. Answers whether the layer is such a one.
pub(crate) fn find_crowded(shades: &mut Shades, items: &[Item]) -> Result<bool, AllocError>
    requires corner { shades.old.spacing.corner ≤ shades.old.spacing.rule }
    requires within { AreOwnedWithin items.now }
    requires sound { IsSound items.now shades.old }
    ensures sound { OnOk result (IsSound items.now shades.new) }
    ensures more { OnOk result (IsMore shades.old shades.new) }
    ensures handles { IfOk result (λ all. IsTrue all → (n : ℕ) → n < length items.now → HandlesAll items.now shades.new n) }
{
    if !are_crowded(items, shades.spacing.rule) {
        return Ok(false);
    }
    darken_all(shades, items);
    if !are_few(shades) {
        return Ok(false);
    }
    add_alive(shades, items)?;
    Ok(true)
}
