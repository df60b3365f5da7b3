//! The zones that are kept.
ghost use Rattle.std.specs.Prelude.{◌≡◌, ℕ, ◌+◌, ◌≤◌, ◌⊎◌, ◌↔◌, IsTrue, IfOk, OnOk, length};
ghost use Rattle.std.specs.List.{All, Contains};
ghost use Rattle.std.specs.List.Sorted.{IsPermutation};
ghost use Rattle.dpl_spec_split.specs.declared.Rect.{Rect};
ghost use Rattle.dpl_spec_split.specs.declared.Zone.{Zone};
ghost use Rattle.dpl_spec_split.specs.Loops.{farthest};
ghost use Rattle.dpl_spec_split.specs.Squares.{IsSolidWithin};
ghost use Rattle.dpl_tree.specs.Trees.{HasItem};
ghost use Rattle.dpl_zone.specs.Layers.{AreItemsWithin, FeaturesRise, IsPassed, TouchIn, TouchesItem, TouchesOwn};

use crate::near::touches_own;
use dpl_base::{Zone, touches};
use dpl_sort::sort_by_key;
use dpl_tree::{Items, Tree, View};
use std::alloc::{AllocError, Global};

/// So many horizontal zones of a feature, and fewer, are looked through one by one.
const FEW: usize = 16;

/// The tree of zones, by feature.
fn tree_of_zones(alloc: Global, zones: &[Zone]) -> Result<Tree, AllocError>
    ensures { IfOk result (λ t. (r : Rect) (k : ℕ) → HasItem t r k ↔ ((z : Zone) × Contains zones.now z × (z.rect ≡ r) × (z.feature ≡ k))) }
{
    let mut items = Items::with_capacity(alloc, zones.len())?;
    for z in zones {
        items.add(&[z.rect], z.feature as usize)?;
    }
    Tree::of(alloc, items)
}

/// Adds a vertical zone that touches no horizontal one (`flat`) of its feature; for many, by a tree.
fn add_apart(kept: &mut Vec<Zone>, flat: &View, z: &Zone) -> Result<(), AllocError>
    requires items { AreItemsWithin flat.now }
    requires zone { IsSolidWithin farthest z.now.rect }
    ensures { OnOk result ((w : Zone) → Contains kept.new.items w ↔ (Contains kept.old.items w ⊎ ((z.now ≡ w) × (TouchesItem flat.now w → ⊥)))) }
{
    if touches_own(flat, z) {
        return Ok(());
    }
    kept.push(*z)?;
    Ok(())
}

/// Whether the zone `h` is of the feature of `z` and touches it.
fn meet(h: &Zone, z: &Zone) -> bool
    requires first { IsSolidWithin farthest h.now.rect }
    requires second { IsSolidWithin farthest z.now.rect }
    ensures { IsTrue result ↔ TouchIn h.now z.now }
{
    if h.feature != z.feature {
        return false;
    }
    touches(&h.rect, &z.rect)
}

/// Whether the zone touches one of the list that is of its feature.
fn touches_any(flat: &[Zone], z: &Zone) -> bool
    requires flat { All (λ z. IsSolidWithin farthest z.rect) flat.now }
    requires zone { IsSolidWithin farthest z.now.rect }
    ensures { IsTrue result ↔ TouchesOwn flat.now z.now }
{
    for h in flat {
        if meet(h, z) {
            return true;
        }
    }
    false
}

/// Adds a vertical zone that touches no horizontal one (`flat`) of its feature; for few, one by one.
fn add_lone(kept: &mut Vec<Zone>, flat: &[Zone], z: &Zone) -> Result<(), AllocError>
    requires flat { All (λ z. IsSolidWithin farthest z.rect) flat.now }
    requires zone { IsSolidWithin farthest z.now.rect }
    ensures { OnOk result ((w : Zone) → Contains kept.new.items w ↔ (Contains kept.old.items w ⊎ ((z.now ≡ w) × (TouchesOwn flat.now w → ⊥)))) }
{
    if touches_any(flat, z) {
        return Ok(());
    }
    kept.push(*z)?;
    Ok(())
}

/// Adds the vertical zones that touch none of a few horizontal ones of their feature.
fn join_few(kept: &mut Vec<Zone>, flat: &[Zone], upright: &[Zone]) -> Result<(), AllocError>
    requires flat { All (λ z. IsSolidWithin farthest z.rect) flat.now }
    requires upright { All (λ z. IsSolidWithin farthest z.rect) upright.now }
    ensures { OnOk result ((w : Zone) → Contains kept.new.items w ↔ (Contains kept.old.items w ⊎ (Contains upright.now w × (TouchesOwn flat.now w → ⊥)))) }
{
    for z in upright {
        add_lone(kept, flat, z)?;
    }
    Ok(())
}

/// Adds the vertical zones that touch none of many horizontal ones of their feature.
fn join_many(
    alloc: Global,
    kept: &mut Vec<Zone>,
    flat: &[Zone],
    upright: &[Zone],
) -> Result<(), AllocError>
    requires flat { All (λ z. IsSolidWithin farthest z.rect) flat.now }
    requires upright { All (λ z. IsSolidWithin farthest z.rect) upright.now }
    ensures { OnOk result ((w : Zone) → Contains kept.new.items w ↔ (Contains kept.old.items w ⊎ (Contains upright.now w × (TouchesOwn flat.now w → ⊥)))) }
{
    let flat_tree = tree_of_zones(alloc, flat)?;
    let flat_view = View::of(&flat_tree);
    for z in upright {
        add_apart(kept, &flat_view, z)?;
    }
    Ok(())
}

/// Adds the vertical zones that touch none of the horizontal ones of their feature.
fn join_run(
    alloc: Global,
    kept: &mut Vec<Zone>,
    flat: &[Zone],
    upright: &[Zone],
) -> Result<(), AllocError>
    requires flat { All (λ z. IsSolidWithin farthest z.rect) flat.now }
    requires upright { All (λ z. IsSolidWithin farthest z.rect) upright.now }
    ensures { OnOk result ((w : Zone) → Contains kept.new.items w ↔ (Contains kept.old.items w ⊎ (Contains upright.now w × (TouchesOwn flat.now w → ⊥)))) }
{
    if flat.len() <= FEW {
        return join_few(kept, flat, upright);
    }
    join_many(alloc, kept, flat, upright)
}

/// The first place from `start` on with a zone of the feature or of a later one.
fn run_start(zones: &[Zone], start: usize, feature: u64) -> usize
    requires { start ≤ length zones.now }
    ensures { IsPassed zones.now start feature result }
{
    for k in start..zones.len() {
        if zones[k].feature >= feature {
            return k;
        }
    }
    zones.len()
}

/// The first place from `start` on with a zone of a later feature.
fn run_end(zones: &[Zone], start: usize, feature: u64) -> usize
    requires { start ≤ length zones.now }
    ensures { IsPassed zones.now start (feature + 1) result }
{
    for k in start..zones.len() {
        if zones[k].feature > feature {
            return k;
        }
    }
    zones.len()
}

/// Sorts by feature: a single pass where the zones stand so already.
fn sort_by_feature(zones: &mut Vec<Zone>)
    ensures same { IsPermutation zones.old.items zones.new.items }
    ensures rise { FeaturesRise zones.new.items }
{
    sort_by_key(zones, |z| z.feature);
}

/// The vertical zones that touch no horizontal one of their feature. Both lists are walked feature by feature.
fn kept_upright(alloc: Global, flat: &[Zone], upright: &[Zone]) -> Result<Vec<Zone>, AllocError>
    requires flat { All (λ z. IsSolidWithin farthest z.rect) flat.now }
    requires upright { All (λ z. IsSolidWithin farthest z.rect) upright.now }
    requires flat_rise { FeaturesRise flat.now }
    requires upright_rise { FeaturesRise upright.now }
    ensures { IfOk result (λ v. (w : Zone) → Contains v.items w ↔ (Contains upright.now w × (TouchesOwn flat.now w → ⊥))) }
{
    let mut kept = Vec::new(alloc);
    let mut from = 0;
    let mut start = 0;
    while start < upright.len() {
        let feature = upright[start].feature;
        let end = run_end(upright, start, feature);
        let low = run_start(flat, from, feature);
        let high = run_end(flat, low, feature);
        join_run(alloc, &mut kept, &flat[low..high], &upright[start..end])?;
        from = high;
        start = end;
    }
    Ok(kept)
}

/// The horizontal zones, and the vertical ones that touch none of their feature.
pub(crate) fn joined(
    alloc: Global,
    flat: Vec<Zone>,
    upright: Vec<Zone>,
) -> Result<Vec<Zone>, AllocError>
    requires flat { All (λ z. IsSolidWithin farthest z.rect) flat.items }
    requires upright { All (λ z. IsSolidWithin farthest z.rect) upright.items }
    ensures { IfOk result (λ v. (z : Zone) → Contains v.items z ↔ (Contains flat.items z ⊎ (Contains upright.items z × (TouchesOwn flat.items z → ⊥)))) }
{
    if flat.is_empty() {
        return Ok(upright);
    }
    if upright.is_empty() {
        return Ok(flat);
    }
    let mut low = flat;
    let mut high = upright;
    sort_by_feature(&mut low);
    sort_by_feature(&mut high);
    let mut kept = kept_upright(alloc, &low, &high)?;
    low.append(&mut kept)?;
    Ok(low)
}
