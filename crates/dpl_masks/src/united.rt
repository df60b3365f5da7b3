//! Patches that are united feature by feature.
ghost use Rattle.std.specs.Prelude.{◌≡◌, ◌≢◌, ℕ, ◌<◌, ◌≤◌, map, IfOk, OnOk, length, slice_index_or};
ghost use Rattle.std.specs.List.Sorted.{IsNonDecreasingBy};
ghost use Rattle.dpl_spec_split.specs.Slabs.{AreSlabsOf};
ghost use Rattle.dpl_orient.specs.Masks.{is_second};
ghost use Rattle.dpl_masks.specs.declared.rest.Patch.{Patch as PatchOf};
ghost use Rattle.dpl_masks.specs.Painting.{ArePatchesWithin, HoldFrom};
ghost use Rattle.dpl_masks.specs.Sheets.{AreInked, AreRest, AreUnitedTo, AreOwnPatches, IsSheetTo};

use crate::ink::InkedPieces;
use crate::rest::Patch;
use dpl_base::Rect;
use dpl_orient::Mask;
use dpl_slabs::Slabs;
use std::alloc::{AllocError, Global};

/// Where the patches of the feature end whose first patch is at a place.
fn own_end(patches: &[Patch], start: usize) -> usize
    requires some { start < length patches.now }
    ensures { AreOwnPatches patches.now start result }
{
    let feature = patches[start].feature;
    for k in start + 1..patches.len() {
        if patches[k].feature != feature {
            return k;
        }
    }
    patches.len()
}

/// The slabs of the patches from one place on up to another.
fn own_slabs(
    alloc: Global,
    patches: &[Patch],
    start: usize,
    end: usize,
) -> Result<Slabs, AllocError>
    requires start { start ≤ end }
    requires end { end ≤ length patches.now }
    requires within { ArePatchesWithin patches.now }
    ensures { IfOk result (λ s. AreSlabsOf (HoldFrom patches.now start end) s) }
{
    let mut rects = Vec::with_capacity(alloc, end - start)?;
    for k in start..end {
        rects.push(patches[k].rect)?;
    }
    Slabs::of_rects(alloc, rects)
}

/// Adds the slabs of the patches of a feature to those of the ones before it. Answers where the next feature's begin.
fn add_own(
    alloc: Global,
    rects: &mut Vec<Rect>,
    inked: &InkedPieces,
    colours: &[Mask],
    letter: Mask,
    patches: &[Patch],
    start: usize,
) -> Result<usize, AllocError>
    requires some { start < length patches.now }
    requires rest { AreRest inked.now.cut.parts inked.now.cut.owners.items inked.now.cut.zones.items inked.now.cut.sides.items (map is_second colours.now) inked.now.inks.items (is_second letter) patches.now }
    requires rise { IsNonDecreasingBy (λ t. t.feature) patches.now }
    requires united { AreUnitedTo inked.now.cut colours.now inked.now.inks.items (is_second letter) patches.now start rects.old.items }
    ensures more { IfOk result (λ end. start < end) }
    ensures within { IfOk result (λ end. end ≤ length patches.now) }
    ensures united { IfOk result (λ end. AreUnitedTo inked.now.cut colours.now inked.now.inks.items (is_second letter) patches.now end rects.new.items) }
{
    let end = own_end(patches, start);
    let slabs = own_slabs(alloc, patches, start, end)?;
    rects.extend_from_slice(slabs.rects())?;
    Ok(end)
}

/// The slabs, in any order, of patches of features on both masks, which go by feature.
pub(crate) fn united(
    alloc: Global,
    inked: &InkedPieces,
    colours: &[Mask],
    letter: Mask,
    patches: &[Patch],
) -> Result<Vec<Rect>, AllocError>
    requires inked { AreInked inked.now.cut colours.now inked.now.inks.items }
    requires rest { AreRest inked.now.cut.parts inked.now.cut.owners.items inked.now.cut.zones.items inked.now.cut.sides.items (map is_second colours.now) inked.now.inks.items (is_second letter) patches.now }
    requires rise { IsNonDecreasingBy (λ t. t.feature) patches.now }
    ensures { IfOk result (λ v. IsSheetTo inked.now.cut.parts inked.now.cut.owners.items inked.now.cut.zones.items inked.now.cut.sides.items inked.now.cut.wholes.items (map is_second colours.now) inked.now.inks.items (is_second letter) 0 0 v.items) }
{
    let mut rects = Vec::new(alloc);
    let mut start = 0;
    while start < patches.len() {
        start = add_own(alloc, &mut rects, inked, colours, letter, patches, start)?;
    }
    Ok(rects)
}
