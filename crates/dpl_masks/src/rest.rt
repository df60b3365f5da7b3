//! What features on both masks have on one of them.
ghost use Rattle.std.specs.Prelude.{◌≡◌, ◌<◌, ◌⊎◌, ◌↔◌, map, IfOk, OnOk, length};
ghost use Rattle.std.specs.List.{All, Contains};
ghost use Rattle.std.specs.List.Sorted.{IsNonDecreasingBy};
ghost use Rattle.dpl_spec_split.specs.Loops.{AreRectsWithin, farthest};
ghost use Rattle.dpl_spec_split.specs.Squares.{Covers, Has, IsSolidWithin};
ghost use Rattle.dpl_orient.specs.Masks.{is_second};
ghost use Rattle.dpl_masks.specs.Inks.{IsMixed};
ghost use Rattle.dpl_masks.specs.Painting.{Adds, ArePatchesWithin};
ghost use Rattle.dpl_masks.specs.Sheets.{AreInked, AreRest, rest_pieces, rest_zones};
ghost use Rattle.dpl_masks.specs.declared.rest.Patch.{Patch as PatchOf};

use crate::ink::{Ink, is_mixed, is_same};
use dpl_base::{Id, Rect, Zone};
use dpl_orient::Mask;
use dpl_piece::Cut;
use dpl_slabs::Slabs;
use dpl_sort::sort_by_key;
use std::alloc::{AllocError, Global};

/// A rectangle of a feature.
#[derive(Clone, Copy, Drop)]
pub struct Patch {
    pub feature: Id,
    pub rect: Rect,
}

/// The patches, which may overlap, that features on both masks have on that of a letter, by feature.
pub(crate) fn rest_of(
    alloc: Global,
    cut: &Cut,
    inks: &[Ink],
    colours: &[Mask],
    letter: Mask,
) -> Result<Vec<Patch>, AllocError>
    requires { AreInked cut.now colours.now inks.now }
    ensures rest { IfOk result (λ v. AreRest cut.now.parts cut.now.owners.items cut.now.zones.items cut.now.sides.items (map is_second colours.now) inks.now (is_second letter) v.items) }
    ensures rise { IfOk result (λ v. IsNonDecreasingBy (λ t. t.feature) v.items) }
{
    let mut patches = Vec::new(alloc);
    add_rest_zones(&mut patches, &cut.zones, &cut.sides, inks, colours, letter)?;
    add_rest_pieces(
        &mut patches,
        cut.parts.items(),
        &cut.owners,
        inks,
        colours,
        letter,
    )?;
    sort_by_feature(&mut patches);
    Ok(patches)
}

/// Sorts by feature.
fn sort_by_feature(patches: &mut Vec<Patch>)
    ensures same { (t : PatchOf) → Contains patches.new.items t ↔ Contains patches.old.items t }
    ensures rise { IsNonDecreasingBy (λ t. t.feature) patches.new.items }
{
    sort_by_key(patches, |patch| patch.feature);
}

/// Adds the slabs of a piece as patches of its feature.
fn add_slabs(patches: &mut Vec<Patch>, feature: Id, slabs: &[Rect]) -> Result<(), AllocError>
    requires slabs { AreRectsWithin farthest slabs.now }
    requires within { ArePatchesWithin patches.old.items }
    ensures adds { OnOk result (Adds patches.old.items patches.new.items (λ f p. (feature ≡ f) × Covers slabs.now p)) }
    ensures within { OnOk result (ArePatchesWithin patches.new.items) }
{
    for k in 0..slabs.len() {
        let rect = slabs[k];
        patches.push(Patch { feature, rect })?;
    }
    Ok(())
}

/// Adds a piece of a feature to what the mask of a letter has, if that is its own and its feature lies on both masks.
fn add_rest_piece(
    patches: &mut Vec<Patch>,
    feature: Id,
    piece: &[Rect],
    own: Mask,
    letter: Mask,
    ink: Ink,
) -> Result<(), AllocError>
    requires piece { AreRectsWithin farthest piece.now }
    requires within { ArePatchesWithin patches.old.items }
    ensures adds { OnOk result (Adds patches.old.items patches.new.items (λ f p. IsMixed ink × (is_second own ≡ is_second letter) × (feature ≡ f) × Covers piece.now p)) }
    ensures within { OnOk result (ArePatchesWithin patches.new.items) }
{
    if !is_mixed(ink) {
        return Ok(());
    }
    if !is_same(own, letter) {
        return Ok(());
    }
    add_slabs(patches, feature, piece)?;
    Ok(())
}

/// Adds those pieces of a letter whose features lie on both masks.
fn add_rest_pieces(
    patches: &mut Vec<Patch>,
    parts: &[Slabs],
    owners: &[Id],
    inks: &[Ink],
    colours: &[Mask],
    letter: Mask,
) -> Result<(), AllocError>
    requires each { length colours.now ≡ length parts.now }
    requires owners { length owners.now ≡ length parts.now }
    requires owned { All (λ k. k < length inks.now) owners.now }
    requires within { ArePatchesWithin patches.old.items }
    ensures adds { OnOk result (Adds patches.old.items patches.new.items (rest_pieces (length parts.now) parts.now owners.now (map is_second colours.now) inks.now (is_second letter))) }
    ensures within { OnOk result (ArePatchesWithin patches.new.items) }
{
    for k in 0..parts.len() {
        let owner = owners[k];
        let ink = inks[owner as usize];
        add_rest_piece(patches, owner, parts[k].rects(), colours[k], letter, ink)?;
    }
    Ok(())
}

/// Adds a zone, if one of its sides has the letter.
fn add_zone(
    patches: &mut Vec<Patch>,
    zone: &Zone,
    first: Mask,
    second: Mask,
    letter: Mask,
) -> Result<(), AllocError>
    requires zone { IsSolidWithin farthest zone.now.rect }
    requires within { ArePatchesWithin patches.old.items }
    ensures adds { OnOk result (Adds patches.old.items patches.new.items (λ f p. ((is_second first ≡ is_second letter) ⊎ (is_second second ≡ is_second letter)) × (zone.now.feature ≡ f) × Has zone.now.rect p)) }
    ensures within { OnOk result (ArePatchesWithin patches.new.items) }
{
    let patch = Patch {
        feature: zone.feature,
        rect: zone.rect,
    };
    if is_same(first, letter) {
        patches.push(patch)?;
        return Ok(());
    }
    if is_same(second, letter) {
        patches.push(patch)?;
        return Ok(());
    }
    Ok(())
}

/// Adds a zone, if one of its sides has the letter and its feature lies on both masks.
fn add_rest_zone(
    patches: &mut Vec<Patch>,
    zone: &Zone,
    first: Mask,
    second: Mask,
    letter: Mask,
    ink: Ink,
) -> Result<(), AllocError>
    requires zone { IsSolidWithin farthest zone.now.rect }
    requires within { ArePatchesWithin patches.old.items }
    ensures adds { OnOk result (Adds patches.old.items patches.new.items (λ f p. IsMixed ink × ((is_second first ≡ is_second letter) ⊎ (is_second second ≡ is_second letter)) × (zone.now.feature ≡ f) × Has zone.now.rect p)) }
    ensures within { OnOk result (ArePatchesWithin patches.new.items) }
{
    if is_mixed(ink) {
        add_zone(patches, zone, first, second, letter)?;
    }
    Ok(())
}

/// Adds those zones with a side of a letter whose features lie on both masks.
fn add_rest_zones(
    patches: &mut Vec<Patch>,
    zones: &[Zone],
    sides: &[(Id, Id)],
    inks: &[Ink],
    colours: &[Mask],
    letter: Mask,
) -> Result<(), AllocError>
    requires each { length sides.now ≡ length zones.now }
    requires known { All (λ side. (side.0 < length colours.now) × (side.1 < length colours.now)) sides.now }
    requires zones { All (λ z. IsSolidWithin farthest z.rect) zones.now }
    requires zoned { All (λ z. z.feature < length inks.now) zones.now }
    requires within { ArePatchesWithin patches.old.items }
    ensures adds { OnOk result (Adds patches.old.items patches.new.items (rest_zones (length zones.now) zones.now sides.now (map is_second colours.now) inks.now (is_second letter))) }
    ensures within { OnOk result (ArePatchesWithin patches.new.items) }
{
    for k in 0..zones.len() {
        let zone = zones[k];
        let side = sides[k];
        add_rest_zone(
            patches,
            &zone,
            colours[side.0 as usize],
            colours[side.1 as usize],
            letter,
            inks[zone.feature as usize],
        )?;
    }
    Ok(())
}
