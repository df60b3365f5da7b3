//! The rows at which items of a join are near items of other owners.
ghost use Rattle.std.specs.Prelude.{◌≡◌, ◌≢◌, ℕ, ◌+◌, ◌<◌, ◌≤◌, ◌⊎◌, ◌↔◌, ℤ, pos, ◌+ℤ◌, ◌<ℤ◌, [], IsTrue, IfOk, OnOk, length};
ghost use Rattle.std.specs.List.{All, Contains};
ghost use Rattle.std.specs.List.Sorted.{IsPermutation};
ghost use Rattle.dpl_spec_split.specs.Loops.{farthest};
ghost use Rattle.dpl_spec_split.specs.Squares.{IsSolidWithin};
ghost use Rattle.dpl_join.specs.declared.items.Item.{Item};
ghost use Rattle.dpl_join.specs.Pairs.{IsPair, item_at};
ghost use Rattle.dpl_shade.specs.declared.shades.Shade.{Shade};
ghost use Rattle.dpl_shade.specs.Items.{AreOwnedWithin};
ghost use Rattle.dpl_shade.specs.Rows.{AreTall, IsShadow, RiseByFrom, SomeRow};
ghost use Rattle.dpl_shade.specs.Shading.{AreShades, Handles, HandlesBoth, HasShade, IsMore, IsSound, IsStart, IsPortion, NumbersRise};

use crate::crowded::find_crowded;
use crate::dealt::{add_dealt, all_dealt};
use crate::rows::{Span, shadow};
use dpl_base::{Rect, Spacing};
use dpl_join::{Item, Join, Pair};
use dpl_sort::sort_by_key;
use std::alloc::{AllocError, Global};
use std::thread::Threads;

/// Rows of an item that another one shades.
#[derive(Clone, Copy, Drop)]
pub struct Shade {
    pub number: u32,
    pub span: Span,
}

/// The shades of items, by an item's number, and which items are dead: those that are too short for a zone, or of which one shadow leaves too few rows for one. A dead item needs no shade any more. Spacing and overlap are in database units.
#[derive(Drop)]
pub struct Shades {
    pub spacing: Spacing,
    pub overlap: u32,
    pub found: Vec<Shade>,
    pub dead: Vec<bool>,
}

/// Where the shades of an item stand among all.
#[derive(Clone, Copy, Drop)]
pub struct Portion {
    pub number: u32,
    pub start: usize,
    pub end: usize,
}

/// Whether the slab has too few rows for a zone of that overlap, in database units.
pub fn is_short(slab: &Rect, overlap: u32) -> bool
    requires { IsSolidWithin farthest slab.now }
    ensures { IsTrue result ↔ (slab.now.y1 <ℤ (slab.now.y0 +ℤ pos (overlap + 2))) }
{
    if slab.y1 as i64 - (slab.y0 as i64) < overlap as i64 + 2 {
        return true;
    }
    false
}

/// Whether a shadow leaves too few rows of the slab for a zone, below it and above it.
pub(crate) fn leaves_few(slab: &Rect, s: &Span, overlap: u32) -> bool
    ensures { IsTrue result ↔ ((s.now.from <ℤ (slab.now.y0 +ℤ pos (overlap + 2))) × (slab.now.y1 <ℤ (s.now.to +ℤ pos (overlap + 2)))) }
{
    let long = overlap as i64 + 2;
    if s.from >= slab.y0 as i64 + long {
        return false;
    }
    if s.to <= slab.y1 as i64 - long {
        return false;
    }
    true
}

/// Whether a shadow has a row of the slab.
fn meets(slab: &Rect, s: &Span) -> bool
    ensures { IsTrue result ↔ ((s.now.from <ℤ slab.now.y1) × (slab.now.y0 <ℤ s.now.to)) }
{
    if s.from >= slab.y1 as i64 {
        return false;
    }
    (slab.y0 as i64) < s.to
}

/// Notes the rows of item `n` that are near item `m`. Where they leave too few rows for a zone, the item is `dead`: no zone stands in it.
fn add_shadow(
    shades: &mut Shades,
    items: &[Item],
    n: u32,
    m: usize,
    span: Span,
) -> Result<(), AllocError>
    requires first { n < length items.now }
    requires second { m < length items.now }
    requires apart { (item_at items.now m).owner ≢ (item_at items.now n).owner }
    requires sound { IsSound items.now shades.old }
    requires shadow { IsShadow shades.old.spacing (item_at items.now n).rect (item_at items.now m).rect span }
    ensures sound { OnOk result (IsSound items.now shades.new) }
    ensures more { OnOk result (IsMore shades.old shades.new) }
    ensures handles { OnOk result (Handles items.now shades.new n m) }
{
    let slab = items[n as usize].rect;
    if !meets(&slab, &span) {
        return Ok(());
    }
    if leaves_few(&slab, &span, shades.overlap) {
        shades.dead[n as usize] = true;
        return Ok(());
    }
    shades.found.push(Shade { number: n, span })?;
    Ok(())
}

/// Adds what item `m` shades of item `n`.
pub(crate) fn add_shade(
    shades: &mut Shades,
    items: &[Item],
    n: u32,
    m: usize,
) -> Result<(), AllocError>
    requires corner { shades.old.spacing.corner ≤ shades.old.spacing.rule }
    requires within { AreOwnedWithin items.now }
    requires first { n < length items.now }
    requires second { m < length items.now }
    requires apart { (item_at items.now m).owner ≢ (item_at items.now n).owner }
    requires sound { IsSound items.now shades.old }
    ensures sound { OnOk result (IsSound items.now shades.new) }
    ensures more { OnOk result (IsMore shades.old shades.new) }
    ensures handles { OnOk result (Handles items.now shades.new n m) }
{
    if shades.dead[n as usize] {
        return Ok(());
    }
    let slab = items[n as usize].rect;
    let other = items[m].rect;
    match shadow(&slab, &other, shades.spacing) {
        None => Ok(()),
        Some(span) => add_shadow(shades, items, n, m, span),
    }
}

/// Adds what each of a pair shades of the other.
fn add_both(shades: &mut Shades, items: &[Item], pair: &Pair) -> Result<(), AllocError>
    requires corner { shades.old.spacing.corner ≤ shades.old.spacing.rule }
    requires within { AreOwnedWithin items.now }
    requires pair { IsPair shades.old.spacing.rule items.now pair.now }
    requires sound { IsSound items.now shades.old }
    ensures sound { OnOk result (IsSound items.now shades.new) }
    ensures more { OnOk result (IsMore shades.old shades.new) }
    ensures handles { OnOk result (HandlesBoth items.now shades.new pair.now) }
{
    add_shade(shades, items, pair.0, pair.1 as usize)?;
    add_shade(shades, items, pair.1, pair.0 as usize)?;
    Ok(())
}

/// Adds what pairs shade of one another.
pub(crate) fn add_pairs(
    shades: &mut Shades,
    items: &[Item],
    pairs: &[Pair],
) -> Result<(), AllocError>
    requires corner { shades.old.spacing.corner ≤ shades.old.spacing.rule }
    requires within { AreOwnedWithin items.now }
    requires pairs { (p : ℕ × ℕ) → Contains pairs.now p → IsPair shades.old.spacing.rule items.now p }
    requires sound { IsSound items.now shades.old }
    ensures sound { OnOk result (IsSound items.now shades.new) }
    ensures more { OnOk result (IsMore shades.old shades.new) }
    ensures handles { OnOk result ((p : ℕ × ℕ) → Contains pairs.now p → HandlesBoth items.now shades.new p) }
{
    for pair in pairs {
        add_both(shades, items, pair)?;
    }
    Ok(())
}

/// No shades yet. An item of too few rows for a zone needs none.
fn none_found(
    alloc: Global,
    items: &[Item],
    spacing: Spacing,
    overlap: u32,
) -> Result<Shades, AllocError>
    requires { AreOwnedWithin items.now }
    ensures sound { IfOk result (IsSound items.now) }
    ensures spacing { IfOk result (λ t. t.spacing ≡ spacing) }
    ensures overlap { IfOk result (λ t. t.overlap ≡ overlap) }
{
    let mut dead = Vec::with_capacity(alloc, items.len())?;
    for item in items {
        dead.push(is_short(&item.rect, overlap))?;
    }
    Ok(Shades {
        spacing,
        overlap,
        found: Vec::new(alloc),
        dead,
    })
}

/// The shades of all pairs of a join, in no order. The pairs are found strip by strip, so those of one are in memory at a time; where all items of a crowded layer but a few have no zone, as is seen from few pairs, each of these few is compared with all.
fn unsorted_shades(
    alloc: Global,
    join: &Join,
    spacing: Spacing,
    overlap: u32,
) -> Result<Shades, AllocError>
    requires corner { spacing.corner ≤ spacing.rule }
    requires rule { join.now.rule ≡ spacing.rule }
    requires within { AreOwnedWithin join.now.items }
    ensures spacing { IfOk result (λ t. t.spacing ≡ spacing) }
    ensures overlap { IfOk result (λ t. t.overlap ≡ overlap) }
    ensures sound { IfOk result (IsSound join.now.items) }
    ensures handles { IfOk result (λ t. (p : ℕ × ℕ) → IsPair spacing.rule join.now.items p → HandlesBoth join.now.items t p) }
{
    let items = join.items();
    let mut shades = none_found(alloc, items, spacing, overlap)?;
    if find_crowded(&mut shades, items)? {
        return Ok(shades);
    }
    add_dealt(&mut shades, alloc, join, 0, 1)?;
    Ok(shades)
}

/// How many workers find shades at most: each has marks of its own for all items.
const MOST_WORKERS: u32 = 8;

/// The shades of all pairs of a join, in no order, as `unsorted_shades` finds them, those of each strip by one of so many workers.
fn unsorted_shades_by<R: Threads + Sync>(
    rt: &R,
    alloc: Global,
    join: &Join,
    spacing: Spacing,
    overlap: u32,
    workers: u32,
) -> Result<Shades, AllocError>
    requires corner { spacing.corner ≤ spacing.rule }
    requires rule { join.now.rule ≡ spacing.rule }
    requires within { AreOwnedWithin join.now.items }
    requires workers { 1 ≤ workers }
    ensures spacing { IfOk result (λ t. t.spacing ≡ spacing) }
    ensures overlap { IfOk result (λ t. t.overlap ≡ overlap) }
    ensures sound { IfOk result (IsSound join.now.items) }
    ensures handles { IfOk result (λ t. (p : ℕ × ℕ) → IsPair spacing.rule join.now.items p → HandlesBoth join.now.items t p) }
{
    let items = join.items();
    let mut shades = none_found(alloc, items, spacing, overlap)?;
    if find_crowded(&mut shades, items)? {
        return Ok(shades);
    }
    all_dealt(rt, alloc, join, shades, workers.min(MOST_WORKERS))
}

/// Sorts by number.
pub(crate) fn sort_by_number(found: &mut Vec<Shade>)
    ensures same { IsPermutation found.old.items found.new.items }
    ensures rise { NumbersRise found.new.items }
{
    sort_by_key(found, |s| s.number);
}

/// Sorts by number shades of which parts, one behind the other, are in order: std's stable sort finds such parts and merges them. Where it gets no memory for that, all are sorted in place.
fn merge_by_number(found: &mut Vec<Shade>)
    ensures same { IsPermutation found.old.items found.new.items }
    ensures rise { NumbersRise found.new.items }
{
    if found.sort_by_key(|s| s.number).is_err() {
        sort_by_number(found);
    }
}

/// The shades of the items of a join, those of one item behind one another, by number. Spacing and overlap are in database units. The error: out of memory.
pub fn shades_of(
    alloc: Global,
    join: &Join,
    spacing: Spacing,
    overlap: u32,
) -> Result<Shades, AllocError>
    requires corner { spacing.corner ≤ spacing.rule }
    requires rule { join.now.rule ≡ spacing.rule }
    requires within { AreOwnedWithin join.now.items }
    ensures spacing { IfOk result (λ t. t.spacing ≡ spacing) }
    ensures overlap { IfOk result (λ t. t.overlap ≡ overlap) }
    ensures shades { IfOk result (AreShades join.now.items) }
{
    let mut shades = unsorted_shades(alloc, join, spacing, overlap)?;
    sort_by_number(&mut shades.found);
    Ok(shades)
}

/// The shades of the items of a join, as `shades_of` finds them, those of each strip by one of so many workers. With one worker no thread is made. The error: out of memory.
pub fn shades_by<R: Threads + Sync>(
    rt: &R,
    alloc: Global,
    join: &Join,
    spacing: Spacing,
    overlap: u32,
    workers: u32,
) -> Result<Shades, AllocError>
    requires corner { spacing.corner ≤ spacing.rule }
    requires rule { join.now.rule ≡ spacing.rule }
    requires within { AreOwnedWithin join.now.items }
    requires workers { 1 ≤ workers }
    ensures spacing { IfOk result (λ t. t.spacing ≡ spacing) }
    ensures overlap { IfOk result (λ t. t.overlap ≡ overlap) }
    ensures shades { IfOk result (AreShades join.now.items) }
{
    if workers == 1 {
        return shades_of(alloc, join, spacing, overlap);
    }
    let mut shades = unsorted_shades_by(rt, alloc, join, spacing, overlap, workers)?;
    merge_by_number(&mut shades.found);
    Ok(shades)
}

/// The place behind the shades of item `n`, which begin at place `start`.
fn portion_end(found: &[Shade], n: u32, start: usize) -> usize
    requires rise { NumbersRise found.now }
    requires start { IsStart found.now n start }
    ensures { IsStart found.now (n + 1) result }
{
    for k in start..found.len() {
        if found[k].number != n {
            return k;
        }
    }
    found.len()
}

/// The place at which the shades of item `n` begin.
pub fn portion_start(found: &[Shade], n: u32) -> usize
    requires { NumbersRise found.now }
    ensures { IsStart found.now n result }
{
    found.partition_point(|s| s.number < n)
}

/// Where the shades of item `n` stand, which begin at place `start`.
pub fn portion_from(found: &[Shade], n: u32, start: usize) -> Portion
    requires rise { NumbersRise found.now }
    requires start { IsStart found.now n start }
    ensures number { result.number ≡ n }
    ensures portion { IsPortion found.now result }
{
    let end = portion_end(found, n, start);
    Portion {
        number: n,
        start,
        end,
    }
}

/// The shades of one item.
fn shades_at(found: &[Shade], at: Portion) -> &[Shade]
    requires { IsPortion found.now at }
    ensures { (s : Shade) → Contains result.now s ↔ (Contains found.now s × (s.number ≡ at.number)) }
{
    &found[at.start..at.end]
}

/// Lists the rows of an item's shades, in no order.
fn list_rows(spans: &mut Vec<Span>, found: &[Shade], at: Portion) -> Result<(), AllocError>
    requires portion { IsPortion found.now at }
    requires tall { (s : Shade) → Contains found.now s → s.span.from <ℤ s.span.to }
    ensures tall { OnOk result (AreTall spans.new.items) }
    ensures rows { OnOk result ((y : ℤ) → SomeRow spans.new.items y ↔ HasShade found.now at.number y) }
{
    let shades = shades_at(found, at);
    spans.clear();
    for s in shades {
        spans.push(s.span)?;
    }
    Ok(())
}

/// Lists the rows of an item's shades, by lowest row, in place of what `spans` had. The error: out of memory.
pub fn rows_at(spans: &mut Vec<Span>, found: &[Shade], at: Portion) -> Result<(), AllocError>
    requires portion { IsPortion found.now at }
    requires tall { (s : Shade) → Contains found.now s → s.span.from <ℤ s.span.to }
    ensures tall { OnOk result (AreTall spans.new.items) }
    ensures rise { OnOk result (RiseByFrom spans.new.items) }
    ensures rows { OnOk result ((y : ℤ) → SomeRow spans.new.items y ↔ HasShade found.now at.number y) }
{
    list_rows(spans, found, at)?;
    spans.sort_unstable_by_key(|s| s.from);
    Ok(())
}
