//! The zones of a layer, of which the horizontal and the vertical ones are found side by side.
ghost use Rattle.std.specs.Prelude.{◌≡◌, ◌<◌, ◌≤◌, IfOk};
ghost use Rattle.dpl_spec_split.specs.Squares.{Covers};
ghost use Rattle.dpl_spec_split.specs.Zones.{AreZones};
ghost use Rattle.dpl_slabs.specs.Parts.{union_of};
ghost use Rattle.dpl_zone.specs.Columns.{AreColumns};
ghost use Rattle.dpl_zone.specs.Ways.{AreFlat, AreUpright};

use crate::all::{Found, transpose, zones, zones_among};
use crate::columns::columns_of_parts_by;
use crate::items::slabs_of_parts;
use crate::slab_zones::upright_zones_by;
use dpl_base::{Spacing, Zone};
use dpl_join::Item;
use dpl_slabs::{Parts, Slabs};
use std::alloc::{AllocError, Global};
use std::thread::{Threads, join};

/// The horizontal zones of parts, whose columns are given, in no order, as `horizontal_zones` gives them, by so many workers.
fn horizontal_zones_by<R: Threads + Sync>(
    rt: &R,
    alloc: Global,
    parts: &Parts,
    columns: Vec<Item>,
    spacing: Spacing,
    overlap: u32,
    workers: u32,
) -> Result<Vec<Zone>, AllocError>
    requires corner { spacing.corner ≤ spacing.rule }
    requires columns { AreColumns parts.now columns.items }
    requires workers { 1 ≤ workers }
    ensures { IfOk result (λ v. AreFlat spacing overlap parts.now v.items) }
{
    // What is known of a list of parts is known once it is looked at.
    let _ = parts.items();
    let mut zones = upright_zones_by(rt, alloc, columns, spacing, overlap, workers)?;
    transpose(&mut zones);
    Ok(zones)
}

/// The vertical zones of parts, in no order, as `vertical_zones` gives them, by so many workers.
fn vertical_zones_by<R: Threads + Sync>(
    rt: &R,
    alloc: Global,
    parts: &Parts,
    spacing: Spacing,
    overlap: u32,
    workers: u32,
) -> Result<Vec<Zone>, AllocError>
    requires corner { spacing.corner ≤ spacing.rule }
    requires workers { 1 ≤ workers }
    ensures { IfOk result (λ v. AreUpright spacing overlap parts.now v.items) }
{
    let slabs = slabs_of_parts(alloc, parts.items())?;
    upright_zones_by(rt, alloc, slabs, spacing, overlap, workers)
}

/// How many of the items have rows enough for a zone and one more on each side.
fn count_tall(items: &[Item], overlap: u32) -> usize {
    let mut count: usize = 0;
    for item in items {
        if item.rect.y1.abs_diff(item.rect.y0) > overlap.saturating_add(1) {
            count = count.saturating_add(1);
        }
    }
    count
}

/// How many of the slabs of parts have rows enough for a zone and one more on each side.
fn count_tall_slabs(parts: &[Slabs], overlap: u32) -> usize {
    let mut count: usize = 0;
    for part in parts {
        for slab in part.rects() {
            if slab.y1.abs_diff(slab.y0) > overlap.saturating_add(1) {
                count = count.saturating_add(1);
            }
        }
    }
    count
}

/// How many of two workers or more look for the zones of one way, where so many slabs may have one, and so many of the other way: a share of them that goes by these numbers, at least one worker, and not all.
fn workers_for(workers: u32, own: usize, others: usize) -> u32
    requires { 2 ≤ workers }
    ensures some { 1 ≤ result }
    ensures fewer { result < workers }
{
    let all = own.saturating_add(others).max(1);
    let share = (workers as usize)
        .saturating_mul(own)
        .saturating_add(all / 2)
        / all;
    share.min(workers as usize - 1).max(1) as u32
}

/// The stitch zones of disjoint sets within a layer that has just their squares, as `zones` gives them. With two workers or more all of them make the columns of the sets, and then some look for the horizontal zones and the others for the vertical ones, by how many slabs may have such a zone, each in a thread of its own, if one can be made.
///
/// The error: out of memory.
pub fn zones_by<R: Threads + Sync>(
    rt: &R,
    alloc: Global,
    parts: &Parts,
    spacing: Spacing,
    overlap: u32,
    marked: &Slabs,
    workers: u32,
) -> Result<Vec<Zone>, AllocError>
    requires corner { spacing.corner ≤ spacing.rule }
    requires overlap { 1 ≤ overlap }
    ensures { IfOk result (λ v. AreZones spacing overlap (union_of parts.now) parts.now (Covers marked.now) v.items) }
{
    if workers < 2 {
        return zones(alloc, parts, spacing, overlap, marked);
    }
    let columns = columns_of_parts_by(rt, alloc, parts.items(), workers)?;
    let tall = count_tall_slabs(parts.items(), overlap);
    let own = workers_for(workers, count_tall(&columns, overlap), tall);
    let others = workers - own;
    let (horizontal, vertical) = join(
        rt,
        move || -> Result<Vec<Zone>, AllocError>
            requires { (spacing.corner ≤ spacing.rule) × (1 ≤ own) × AreColumns parts.now columns.items }
            ensures { IfOk result (λ v. AreFlat spacing overlap parts.entry.now v.items) }
        { horizontal_zones_by(rt, alloc, parts, columns, spacing, overlap, own) },
        || -> Result<Vec<Zone>, AllocError>
            requires { (spacing.corner ≤ spacing.rule) × (1 ≤ others) }
            ensures { IfOk result (λ v. AreUpright spacing overlap parts.entry.now v.items) }
        { vertical_zones_by(rt, alloc, parts, spacing, overlap, others) },
    );
    let found = Found {
        spacing,
        overlap,
        horizontal: horizontal?,
        vertical: vertical?,
    };
    zones_among(alloc, parts, found, marked)
}
