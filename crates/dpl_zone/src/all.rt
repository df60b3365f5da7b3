//! The zones of all features.
ghost use Rattle.std.specs.Prelude.{◌≡◌, ◌<◌, ◌≤◌, ◌↔◌, IfOk, length, map};
ghost use Rattle.std.specs.List.{Contains};
ghost use Rattle.dpl_spec_split.specs.declared.Zone.{Zone};
ghost use Rattle.dpl_spec_split.specs.Squares.{Covers};
ghost use Rattle.dpl_spec_split.specs.Zones.{AreZones};
ghost use Rattle.dpl_slabs.specs.Parts.{AreParts, union_of};
ghost use Rattle.dpl_zone.specs.Layers.{IsPartZone, transposed_zone};
ghost use Rattle.dpl_zone.specs.Ways.{AreFlat, AreUpright};

use crate::items::{columns_of_parts, slabs_of_parts};
use crate::kept::joined;
use crate::marked::unmarked;
use crate::order::{each_once, sort_zones};
use crate::slab_zones::upright_zones;
use dpl_base::{Spacing, Zone, transposed};
use dpl_slabs::{Parts, Slabs};
use std::alloc::{AllocError, Global};

/// Exchanges x and y of each zone where it stands.
pub(crate) fn transpose(zones: &mut Vec<Zone>)
    ensures { zones.new.items ≡ map transposed_zone zones.old.items }
{
    for i in 0..zones.len() {
        let z = zones[i];
        zones[i] = Zone {
            rect: transposed(&z.rect),
            feature: z.feature,
        };
    }
}

/// Zones of parts before it is known which are kept: the horizontal and the vertical ones, each in no order, and what they were sought by.
#[derive(Drop)]
pub(crate) struct Found {
    pub(crate) spacing: Spacing,
    pub(crate) overlap: u32,
    pub(crate) horizontal: Vec<Zone>,
    pub(crate) vertical: Vec<Zone>,
}

/// The horizontal zones of parts, in no order, whether marked or not.
///
/// The error: out of memory.
fn horizontal_zones(
    alloc: Global,
    parts: &Parts,
    spacing: Spacing,
    overlap: u32,
) -> Result<Vec<Zone>, AllocError>
    requires corner { spacing.corner ≤ spacing.rule }
    ensures { IfOk result (λ v. AreFlat spacing overlap parts.now v.items) }
{
    let columns = columns_of_parts(alloc, parts.items())?;
    let mut zones = upright_zones(alloc, columns, spacing, overlap)?;
    transpose(&mut zones);
    Ok(zones)
}

/// The vertical zones of parts, in no order, whether marked or not, those too that touch a horizontal one.
///
/// The error: out of memory.
fn vertical_zones(
    alloc: Global,
    parts: &Parts,
    spacing: Spacing,
    overlap: u32,
) -> Result<Vec<Zone>, AllocError>
    requires corner { spacing.corner ≤ spacing.rule }
    ensures { IfOk result (λ v. AreUpright spacing overlap parts.now v.items) }
{
    let slabs = slabs_of_parts(alloc, parts.items())?;
    upright_zones(alloc, slabs, spacing, overlap)
}

/// The zones of parts that are kept, as `zones` gives them, by their horizontal and their vertical ones.
///
/// The error: out of memory.
pub(crate) fn zones_among(
    alloc: Global,
    parts: &Parts,
    found: Found,
    marked: &Slabs,
) -> Result<Vec<Zone>, AllocError>
    requires some { 1 ≤ found.overlap }
    requires horizontal { AreFlat found.spacing found.overlap parts.now found.horizontal.items }
    requires vertical { AreUpright found.spacing found.overlap parts.now found.vertical.items }
    ensures { IfOk result (λ v. AreZones found.spacing found.overlap (union_of parts.now) parts.now (Covers marked.now) v.items) }
{
    // What is known of a list of parts is known once it is looked at.
    let _ = parts.items();
    let mut kept = joined(alloc, found.horizontal, found.vertical)?;
    sort_zones(&mut kept);
    let all = each_once(alloc, &kept)?;
    unmarked(alloc, all, marked)
}

/// The stitch zones of disjoint sets within a layer that has just their squares, by lowest row and then by leftmost column. A zone is `overlap` squares wide and lies in the middle of a straight stretch of squares that are near no square of another set: none is closer than the spacing's corner rule where columns and rows lie between the two, or else than its rule. A vertical zone that touches a horizontal one of its set is dropped, and then each zone with a marked square; so a vertical zone goes also where the horizontal one is marked.
///
/// The error: out of memory.
pub fn zones(
    alloc: Global,
    parts: &Parts,
    spacing: Spacing,
    overlap: u32,
    marked: &Slabs,
) -> Result<Vec<Zone>, AllocError>
    requires corner { spacing.corner ≤ spacing.rule }
    requires overlap { 1 ≤ overlap }
    ensures { IfOk result (λ v. AreZones spacing overlap (union_of parts.now) parts.now (Covers marked.now) v.items) }
{
    let horizontal = horizontal_zones(alloc, parts, spacing, overlap)?;
    let vertical = vertical_zones(alloc, parts, spacing, overlap)?;
    let found = Found {
        spacing,
        overlap,
        horizontal,
        vertical,
    };
    zones_among(alloc, parts, found, marked)
}
