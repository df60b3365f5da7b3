//! Slabs of different owners that are near, with the cells in which they may be.
ghost use Rattle.std.specs.Prelude.{◌≡◌, ◌≢◌, ℕ, ◌<◌, ◌≤◌, ◌↔◌, IsTrue, IfOk, OnOk, length, slice_index, slice_index_or};
ghost use Rattle.std.specs.List.{All, Contains};
ghost use Rattle.dpl_spec_split.specs.Loops.{farthest};
ghost use Rattle.dpl_spec_split.specs.Squares.{IsSolidWithin};
ghost use Rattle.dpl_join.specs.declared.items.Item.{Item};
ghost use Rattle.dpl_join.specs.Pairs.{IsPair};
ghost use Rattle.dpl_tile.specs.declared.meetings.Meeting.{Meeting};
ghost use Rattle.dpl_tile.specs.Adding.{Adds};
ghost use Rattle.dpl_tile.specs.Kept.{IsSound, IsOver};
ghost use Rattle.dpl_tile.specs.Meetings.{AreMeetings, AreFoes, IsMeeting, IsMeetingAmong, IsMeetingOf, RiseByPlace};

use crate::cells::{only_place, places_of_both};
use crate::grid::{Grid, Place};
use crate::reach::reached;
use dpl_base::{Id, Spacing, near};
use dpl_join::{Item, Join, Pair};
use dpl_sort::sort_by_key;
use std::alloc::{AllocError, Global};

/// Two slabs of different owners that are near, by their numbers, and the place of a cell with a square of one that may be near the other.
#[derive(Clone, Copy, Drop)]
pub struct Meeting {
    pub place: Place,
    pub first: u32,
    pub second: u32,
}

/// Adds a pair with a place.
fn add_place(meetings: &mut Vec<Meeting>, place: Place, pair: &Pair) -> Result<(), AllocError>
    ensures { OnOk result (Adds (λ (m : Meeting). (m.first ≡ pair.now.0) × (m.second ≡ pair.now.1) × (m.place ≡ place)) meetings.old.items meetings.new.items) }
{
    meetings.push(Meeting {
        place,
        first: pair.0,
        second: pair.1,
    })?;
    Ok(())
}

/// Adds a pair with each of the places.
fn add_places(meetings: &mut Vec<Meeting>, places: &[Place], pair: &Pair) -> Result<(), AllocError>
    ensures { OnOk result (Adds (λ (m : Meeting). (m.first ≡ pair.now.0) × (m.second ≡ pair.now.1) × Contains places.now m.place) meetings.old.items meetings.new.items) }
{
    for place in places {
        meetings.push(Meeting {
            place: *place,
            first: pair.0,
            second: pair.1,
        })?;
    }
    Ok(())
}

/// Whether the slabs have different owners and are near.
pub fn are_foes(a: &Item, b: &Item, owners: &[Id], spacing: Spacing) -> bool
    requires corner { spacing.corner ≤ spacing.rule }
    requires first { a.now.owner < length owners.now }
    requires second { b.now.owner < length owners.now }
    requires solid_a { IsSolidWithin farthest a.now.rect }
    requires solid_b { IsSolidWithin farthest b.now.rect }
    ensures { IsTrue result ↔ AreFoes spacing owners.now a.now b.now }
{
    if owners[a.owner as usize] == owners[b.owner as usize] {
        return false;
    }
    near(&a.rect, &b.rect, spacing)
}

/// Adds the meetings of a pair, where it has some.
fn add_pair(
    meetings: &mut Vec<Meeting>,
    alloc: Global,
    grid: &Grid,
    items: &[Item],
    pair: &Pair,
    owners: &[Id],
    spacing: Spacing,
) -> Result<(), AllocError>
    requires corner { spacing.corner ≤ spacing.rule }
    requires sound { IsSound grid.now }
    requires over { All (λ (item : Item). IsOver grid.now item.rect) items.now }
    requires owned { All (λ (item : Item). item.owner < length owners.now) items.now }
    requires pair { IsPair spacing.rule items.now pair.now }
    ensures { OnOk result (Adds (IsMeetingOf spacing owners.now grid.now items.now pair.now) meetings.old.items meetings.new.items) }
{
    let a = items[pair.0 as usize];
    let b = items[pair.1 as usize];
    if !are_foes(&a, &b, owners, spacing) {
        return Ok(());
    }
    let first = reached(&a.rect, &b.rect, spacing.rule);
    let second = reached(&b.rect, &a.rect, spacing.rule);
    if let Some(place) = only_place(grid, &first, &second) {
        add_place(meetings, place, pair)?;
        return Ok(());
    }
    let places = places_of_both(alloc, grid, &first, &second)?;
    add_places(meetings, places.as_slice(), pair)?;
    Ok(())
}

/// Adds the meetings of these pairs.
fn add_pairs(
    meetings: &mut Vec<Meeting>,
    alloc: Global,
    grid: &Grid,
    items: &[Item],
    pairs: &[Pair],
    owners: &[Id],
    spacing: Spacing,
) -> Result<(), AllocError>
    requires corner { spacing.corner ≤ spacing.rule }
    requires sound { IsSound grid.now }
    requires over { All (λ (item : Item). IsOver grid.now item.rect) items.now }
    requires owned { All (λ (item : Item). item.owner < length owners.now) items.now }
    requires pairs { (p : ℕ × ℕ) → Contains pairs.now p → IsPair spacing.rule items.now p }
    ensures { OnOk result (Adds (IsMeetingAmong spacing owners.now grid.now items.now pairs.now) meetings.old.items meetings.new.items) }
{
    for pair in pairs {
        add_pair(meetings, alloc, grid, items, pair, owners, spacing)?;
    }
    Ok(())
}

/// The meetings of all pairs of a join, in no order. The pairs are found strip by strip, so those of one are in memory at a time.
fn unsorted_meetings(
    alloc: Global,
    grid: &Grid,
    join: &Join,
    owners: &[Id],
    spacing: Spacing,
) -> Result<Vec<Meeting>, AllocError>
    requires corner { spacing.corner ≤ spacing.rule }
    requires rule { join.now.rule ≡ spacing.rule }
    requires sound { IsSound grid.now }
    requires over { All (λ (item : Item). IsOver grid.now item.rect) join.now.items }
    requires owned { All (λ (item : Item). item.owner < length owners.now) join.now.items }
    ensures { IfOk result (λ v. (m : Meeting) → Contains v.items m ↔ IsMeeting spacing owners.now grid.now join.now.items m) }
{
    let items = join.items();
    let mut meetings = Vec::new(alloc);
    let count = join.strips();
    for strip in 0..count {
        let pairs = join.pairs_of_strip(alloc, strip)?;
        add_pairs(
            &mut meetings,
            alloc,
            grid,
            items,
            pairs.as_slice(),
            owners,
            spacing,
        )?;
    }
    Ok(meetings)
}

/// Sorts by place.
fn sort_by_place(meetings: &mut Vec<Meeting>)
    ensures same { (m : Meeting) → Contains meetings.new.items m ↔ Contains meetings.old.items m }
    ensures rise { RiseByPlace meetings.new.items }
{
    sort_by_key(meetings, |m| m.place);
}

/// The meetings of all pairs of a join, by place.
pub(crate) fn meetings_of(
    alloc: Global,
    grid: &Grid,
    join: &Join,
    owners: &[Id],
    spacing: Spacing,
) -> Result<Vec<Meeting>, AllocError>
    requires corner { spacing.corner ≤ spacing.rule }
    requires rule { join.now.rule ≡ spacing.rule }
    requires sound { IsSound grid.now }
    requires over { All (λ (item : Item). IsOver grid.now item.rect) join.now.items }
    requires owned { All (λ (item : Item). item.owner < length owners.now) join.now.items }
    ensures { IfOk result (λ v. AreMeetings spacing owners.now grid.now join.now.items v.items) }
{
    let mut meetings = unsorted_meetings(alloc, grid, join, owners, spacing)?;
    sort_by_place(&mut meetings);
    Ok(meetings)
}
