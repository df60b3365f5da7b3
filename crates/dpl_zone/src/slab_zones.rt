//! The vertical zones of a feature's slabs: what the definition says of columns, left and right, is said here of rows, below and above. Horizontal zones are found the same way, of the transposed parts.
ghost use Rattle.std.specs.Prelude.{◌≡◌, ◌≢◌, ℕ, ◌+◌, ◌-◌, ◌^◌, ◌<◌, ◌≤◌, ◌⊎◌, ◌↔◌, ℤ, pos, ◌+ℤ◌, ◌≤ℤ◌, ◌<ℤ◌, IsTrue, IfOk, OnOk, List, length};
ghost use Rattle.std.specs.List.{AllPairs, Contains};
ghost use Rattle.dpl_spec_split.specs.declared.Rect.{Rect};
ghost use Rattle.dpl_spec_split.specs.declared.Zone.{Zone};
ghost use Rattle.dpl_spec_split.specs.Loops.{farthest};
ghost use Rattle.dpl_spec_split.specs.Squares.{IsSolidWithin};
ghost use Rattle.dpl_slabs.specs.Parts.{AreApart};
ghost use Rattle.dpl_join.specs.Pairs.{item_at};
ghost use Rattle.dpl_shade.specs.Ends.{AreEnds};
ghost use Rattle.dpl_shade.specs.Items.{AreInOrder, AreOwnedWithin, OwnersRise};
ghost use Rattle.dpl_shade.specs.Rows.{AreTall, GoesAbove, GoesBelow, RiseByFrom, SomeRow};
ghost use Rattle.dpl_shade.specs.Shading.{AreShades, IsPortion, IsShort};
ghost use Rattle.dpl_zone.specs.ItemZones.{AreOfItems};
ghost use Rattle.dpl_zone.specs.Owned.{AreSets};
ghost use Rattle.dpl_zone.specs.SlabZones.{AddsZones, IsLitZone, IsMiddleOf, IsOpenSpan};
ghost use Rattle.dpl_zone.specs.Ways.{AreUpright, IsItemZone};

use dpl_base::{Rect, Spacing, Zone};
use dpl_join::{Item, Join};
use dpl_shade::{
    Ends, Portion, Shades, Span, ends_of, gaps, is_short, portion_from, portion_start, rows_at,
    shades_by, shades_of,
};
use std::alloc::{AllocError, Global};
use std::thread::{Threads, join};

/// Room for what is found at one item, used again for the next: the rows of its shades, the spans between them, and its zones.
#[derive(Drop)]
struct Room {
    spans: Vec<Span>,
    free: Vec<Span>,
    zones: Vec<Rect>,
}

impl Room {
    /// Room in which nothing is found yet.
    fn new(alloc: Global) -> Room {
        Room {
            spans: Vec::new(alloc),
            free: Vec::new(alloc),
            zones: Vec::new(alloc),
        }
    }
}

/// Whether the feature goes on below the span: in the slab itself, or below that.
fn goes_below(slab: &Rect, ends: Ends, g: &Span) -> bool
    ensures { IsTrue result ↔ ((slab.now.y0 <ℤ g.now.from) ⊎ IsTrue ends.below) }
{
    (slab.y0 as i64) < g.from || ends.below
}

/// Whether the feature goes on above the span: in the slab itself, or above that.
fn goes_above(slab: &Rect, ends: Ends, g: &Span) -> bool
    ensures { IsTrue result ↔ ((g.now.to <ℤ slab.now.y1) ⊎ IsTrue ends.above) }
{
    g.to < slab.y1 as i64 || ends.above
}

/// Whether a span is long enough for a zone, and the feature goes on beyond both its ends.
fn is_open(slab: &Rect, ends: Ends, g: &Span, overlap: u32) -> bool
    requires slab { IsSolidWithin farthest slab.now }
    requires from { slab.now.y0 ≤ℤ g.now.from }
    requires some { g.now.from <ℤ g.now.to }
    requires to { g.now.to ≤ℤ slab.now.y1 }
    ensures { IsTrue result ↔ IsOpenSpan overlap slab.now (IsTrue ends.below) (IsTrue ends.above) g.now }
{
    g.to - g.from >= overlap as i64 + 2 && goes_below(slab, ends, g) && goes_above(slab, ends, g)
}

/// The middle of a span.
fn middle(slab: &Rect, g: &Span, overlap: u32) -> Rect
    requires slab { IsSolidWithin farthest slab.now }
    requires from { slab.now.y0 ≤ℤ g.now.from }
    requires to { g.now.to ≤ℤ slab.now.y1 }
    requires long { (g.now.from +ℤ pos (overlap + 2)) ≤ℤ g.now.to }
    ensures { IsMiddleOf overlap slab.now g.now result }
{
    let rows = (g.to - g.from) as u64;
    let before = (rows - overlap as u64) / 2;
    let y0 = g.from + before as i64;
    Rect {
        x0: slab.x0,
        y0: y0 as i32,
        x1: slab.x1,
        y1: (y0 + overlap as i64) as i32,
    }
}

/// Adds the zone of a span, where it has one.
fn add_zone(
    zones: &mut Vec<Rect>,
    slab: &Rect,
    ends: Ends,
    g: &Span,
    overlap: u32,
) -> Result<(), AllocError>
    requires slab { IsSolidWithin farthest slab.now }
    requires from { slab.now.y0 ≤ℤ g.now.from }
    requires some { g.now.from <ℤ g.now.to }
    requires to { g.now.to ≤ℤ slab.now.y1 }
    ensures { OnOk result (AddsZones (λ z. IsOpenSpan overlap slab.now (IsTrue ends.below) (IsTrue ends.above) g.now × IsMiddleOf overlap slab.now g.now z) zones.old.items zones.new.items) }
{
    if !is_open(slab, ends, g, overlap) {
        return Ok(());
    }
    let zone = middle(slab, g, overlap);
    zones.push(zone)?;
    Ok(())
}

/// Whether each item has too few rows for a zone.
fn are_short(items: &[Item], overlap: u32) -> bool
    requires { AreOwnedWithin items.now }
    ensures { IsTrue result → (n : ℕ) → n < length items.now → IsShort overlap items.now n }
{
    for item in items {
        if !is_short(&item.rect, overlap) {
            return false;
        }
    }
    true
}

/// Adds the zones between spans of a slab that are near other rectangles. The list `free` is room for the spans between.
fn add_zones(
    zones: &mut Vec<Rect>,
    free: &mut Vec<Span>,
    slab: &Rect,
    ends: Ends,
    spans: &[Span],
    overlap: u32,
) -> Result<(), AllocError>
    requires slab { IsSolidWithin farthest slab.now }
    requires tall { AreTall spans.now }
    requires rise { RiseByFrom spans.now }
    ensures { OnOk result (AddsZones (IsLitZone overlap (IsTrue ends.below) (IsTrue ends.above) (SomeRow spans.now) slab.now) zones.old.items zones.new.items) }
{
    gaps(free, spans, slab.y0 as i64, slab.y1 as i64)?;
    for g in free.as_slice() {
        add_zone(zones, slab, ends, g, overlap)?;
    }
    Ok(())
}

/// The number of an item's owner.
fn owner_of(item: &Item) -> usize
    ensures { result ≡ item.now.owner }
{
    item.owner as usize
}

/// Lists the zones of an item, whose portion of the shades is given, in place of those of another.
fn zones_of_item(
    room: &mut Room,
    items: &[Item],
    at: Portion,
    ends: &[Ends],
    shades: &Shades,
) -> Result<(), AllocError>
    requires known { at.number < length items.now }
    requires portion { IsPortion shades.now.found.items at }
    requires within { AreOwnedWithin items.now }
    requires shades { AreShades items.now shades.now }
    requires ends { AreEnds items.now shades.now.dead.items ends.now }
    ensures { OnOk result ((z : Rect) → Contains room.new.zones.items z ↔ IsItemZone shades.now.spacing shades.now.overlap items.now at.number z) }
{
    let n = at.number as usize;
    room.zones.clear();
    if shades.dead[n] {
        return Ok(());
    }
    rows_at(&mut room.spans, &shades.found, at)?;
    add_zones(
        &mut room.zones,
        &mut room.free,
        &items[n].rect,
        ends[n],
        &room.spans,
        shades.overlap,
    )?;
    Ok(())
}

/// Adds the zones of an item, whose portion of the shades is given.
fn add_item(
    zones: &mut Vec<Zone>,
    room: &mut Room,
    items: &[Item],
    at: Portion,
    ends: &[Ends],
    shades: &Shades,
) -> Result<(), AllocError>
    requires known { at.number < length items.now }
    requires portion { IsPortion shades.now.found.items at }
    requires within { AreOwnedWithin items.now }
    requires shades { AreShades items.now shades.now }
    requires ends { AreEnds items.now shades.now.dead.items ends.now }
    ensures { OnOk result ((z : Zone) → Contains zones.new.items z ↔ (Contains zones.old.items z ⊎ ((z.feature ≡ (item_at items.now at.number).owner) × IsItemZone shades.now.spacing shades.now.overlap items.now at.number z.rect))) }
{
    zones_of_item(room, items, at, ends, shades)?;
    let owner = owner_of(&items[at.number as usize]);
    for rect in &room.zones {
        zones.push(Zone {
            rect: *rect,
            feature: owner as u64,
        })?;
    }
    Ok(())
}

/// The zones of the items from number `start` up to but not `end`.
fn zones_between(
    alloc: Global,
    items: &[Item],
    ends: &[Ends],
    shades: &Shades,
    start: usize,
    end: usize,
) -> Result<Vec<Zone>, AllocError>
    requires few { length items.now < 2 ^ 32 }
    requires range { start ≤ end }
    requires known { end ≤ length items.now }
    requires within { AreOwnedWithin items.now }
    requires shades { AreShades items.now shades.now }
    requires ends { AreEnds items.now shades.now.dead.items ends.now }
    ensures { IfOk result (λ v. AreOfItems (IsItemZone shades.now.spacing shades.now.overlap items.now) items.now start end v.items) }
{
    let mut zones = Vec::new(alloc);
    let mut room = Room::new(alloc);
    let mut place = portion_start(&shades.found, start as u32);
    for n in start..end {
        let at = portion_from(&shades.found, n as u32, place);
        add_item(&mut zones, &mut room, items, at, ends, shades)?;
        place = at.end;
    }
    Ok(zones)
}

/// How many items there are at least, where workers share them. The zones of fewer are found while a thread is made.
const MANY: usize = 8192;

/// The zones of the items from number `start` up to but not `end`, by so many workers, each of whom has as many items.
#[cycle(zones)]
fn zones_between_by<R: Threads + Sync>(
    rt: &R,
    alloc: Global,
    items: &[Item],
    ends: &[Ends],
    shades: &Shades,
    start: usize,
    end: usize,
    workers: u32,
) -> Result<Vec<Zone>, AllocError>
    requires few { length items.now < 2 ^ 32 }
    requires range { start ≤ end }
    requires known { end ≤ length items.now }
    requires within { AreOwnedWithin items.now }
    requires shades { AreShades items.now shades.now }
    requires ends { AreEnds items.now shades.now.dead.items ends.now }
    requires workers { 1 ≤ workers }
    ensures { IfOk result (λ v. AreOfItems (IsItemZone shades.now.spacing shades.now.overlap items.now) items.now start end v.items) }
{
    let count = end - start;
    if workers == 1 || count < MANY {
        return zones_between(alloc, items, ends, shades, start, end);
    }
    let half = workers / 2;
    let others = workers - half;
    let share = (count / workers as usize).saturating_mul(half as usize);
    let middle = start + share.min(count);
    let front = || -> Result<Vec<Zone>, AllocError>
        requires { (length items.now < 2 ^ 32) × (start ≤ middle) × (middle ≤ length items.now) × AreOwnedWithin items.now × AreShades items.now shades.now × AreEnds items.now shades.now.dead.items ends.now × (1 ≤ half) }
        ensures { IfOk result (λ v. AreOfItems (IsItemZone shades.entry.now.spacing shades.entry.now.overlap items.entry.now) items.entry.now start middle v.items) }
    { zones_between_by(rt, alloc, items, ends, shades, start, middle, half) };
    let back = || -> Result<Vec<Zone>, AllocError>
        requires { (length items.now < 2 ^ 32) × (middle ≤ end) × (end ≤ length items.now) × AreOwnedWithin items.now × AreShades items.now shades.now × AreEnds items.now shades.now.dead.items ends.now × (1 ≤ others) }
        ensures { IfOk result (λ v. AreOfItems (IsItemZone shades.entry.now.spacing shades.entry.now.overlap items.entry.now) items.entry.now middle end v.items) }
    { zones_between_by(rt, alloc, items, ends, shades, middle, end, others) };
    let (first, second) = join(rt, front, back);
    let mut zones = first?;
    let mut rest = second?;
    zones.append(&mut rest)?;
    Ok(zones)
}

/// The zones of all items.
fn zones_of_items(
    alloc: Global,
    items: &[Item],
    ends: &[Ends],
    shades: &Shades,
) -> Result<Vec<Zone>, AllocError>
    requires few { length items.now < 2 ^ 32 }
    requires within { AreOwnedWithin items.now }
    requires shades { AreShades items.now shades.now }
    requires ends { AreEnds items.now shades.now.dead.items ends.now }
    ensures { IfOk result (λ v. (z : Zone) → Contains v.items z ↔ ((n : ℕ) × (n < length items.now) × (z.feature ≡ (item_at items.now n).owner) × IsItemZone shades.now.spacing shades.now.overlap items.now n z.rect)) }
{
    zones_between(alloc, items, ends, shades, 0, items.len())
}

/// The zones of all items, by so many workers.
fn zones_of_items_by<R: Threads + Sync>(
    rt: &R,
    alloc: Global,
    items: &[Item],
    ends: &[Ends],
    shades: &Shades,
    workers: u32,
) -> Result<Vec<Zone>, AllocError>
    requires few { length items.now < 2 ^ 32 }
    requires within { AreOwnedWithin items.now }
    requires shades { AreShades items.now shades.now }
    requires ends { AreEnds items.now shades.now.dead.items ends.now }
    requires workers { 1 ≤ workers }
    ensures { IfOk result (λ v. (z : Zone) → Contains v.items z ↔ ((n : ℕ) × (n < length items.now) × (z.feature ≡ (item_at items.now n).owner) × IsItemZone shades.now.spacing shades.now.overlap items.now n z.rect)) }
{
    zones_between_by(rt, alloc, items, ends, shades, 0, items.len(), workers)
}

/// The vertical zones of all owners, in no order. Where each item is too short for one, no shade is looked for. So many rectangles that their numbers don't fit into 32 bits are refused as out of memory.
pub(crate) fn upright_zones(
    alloc: Global,
    items: Vec<Item>,
    spacing: Spacing,
    overlap: u32,
) -> Result<Vec<Zone>, AllocError>
    requires corner { spacing.corner ≤ spacing.rule }
    requires rise { OwnersRise items.items }
    requires order { AreInOrder items.items }
    requires within { AreOwnedWithin items.items }
    ensures { (parts : List (List Rect)) → AreSets parts items.items → AllPairs AreApart parts → IfOk result (λ v. AreUpright spacing overlap parts v.items) }
{
    if u32::MAX as usize <= items.len() {
        return Err(AllocError);
    }
    if are_short(&items, overlap) {
        return Ok(Vec::new(alloc));
    }
    let join = Join::of(alloc, items, spacing.rule)?;
    let shades = shades_of(alloc, &join, spacing, overlap)?;
    let items = join.into_items();
    let ends = ends_of(alloc, &items, &shades.dead)?;
    zones_of_items(alloc, &items, &ends, &shades)
}

/// The vertical zones of all owners, in no order, as `upright_zones` gives them, by so many workers.
pub(crate) fn upright_zones_by<R: Threads + Sync>(
    rt: &R,
    alloc: Global,
    items: Vec<Item>,
    spacing: Spacing,
    overlap: u32,
    workers: u32,
) -> Result<Vec<Zone>, AllocError>
    requires corner { spacing.corner ≤ spacing.rule }
    requires rise { OwnersRise items.items }
    requires order { AreInOrder items.items }
    requires within { AreOwnedWithin items.items }
    requires workers { 1 ≤ workers }
    ensures { (parts : List (List Rect)) → AreSets parts items.items → AllPairs AreApart parts → IfOk result (λ v. AreUpright spacing overlap parts v.items) }
{
    if u32::MAX as usize <= items.len() {
        return Err(AllocError);
    }
    if are_short(&items, overlap) {
        return Ok(Vec::new(alloc));
    }
    let join = Join::of(alloc, items, spacing.rule)?;
    let shades = shades_by(rt, alloc, &join, spacing, overlap, workers)?;
    let items = join.into_items();
    let ends = ends_of(alloc, &items, &shades.dead)?;
    zones_of_items_by(rt, alloc, &items, &ends, &shades, workers)
}
