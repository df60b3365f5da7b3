//! The places of the cells that slabs meet.
ghost use Rattle.std.specs.Prelude.{◌≡◌, IsTrue, IfSome, ◌⊎◌, ◌↔◌, ℕ, ◌+◌, ◌-◌, ◌*◌, ◌<◌, ◌≤◌, IfOk, OnOk, length, sum_by};
ghost use Rattle.std.specs.List.{All, AllPairs, Contains};
ghost use Rattle.dpl_spec_split.specs.Graphs.{Precedes};
ghost use Rattle.dpl_tile.specs.Adding.{Adds};
ghost use Rattle.dpl_tile.specs.Kept.{HasOneCell, IsSound, IsOver, AreOver, IsSomeBlock, IsInRow, IsInBlock, IsMet, IsMetByAny, IsMetByPart, ArePlaces};
ghost use Rattle.dpl_tile.specs.Tiles.{cells_met, pairs_of};

use crate::grid::{Block, Grid, Place};
use dpl_base::Rect;
use dpl_slabs::Slabs;
use std::alloc::{AllocError, Global};

/// A list shorter than this isn't put in order until all places are in it.
const LEAST_LIMIT: usize = 65_536;

/// Puts places in order, each once.
fn put_in_order(places: &mut Vec<Place>)
    ensures ordered { AllPairs Precedes places.new.items }
    ensures members { (e : ℕ × ℕ) → Contains places.new.items e ↔ Contains places.old.items e }
    ensures few { length places.new.items ≤ length places.old.items }
{
    places.sort_unstable();
    places.dedup();
}

/// Keeps a list short to which places are added again and again: once it is as long as the limit, it is put in order, each place once, and the next limit is twice what is left, but not below the least. So each time at least half of the places that are put in order were added since the last time.
fn tidy(places: &mut Vec<Place>, limit: &mut usize)
    ensures members { (e : ℕ × ℕ) → Contains places.new.items e ↔ Contains places.old.items e }
    ensures few { length places.new.items ≤ length places.old.items }
    ensures short { length places.new.items < limit.new }
{
    if places.len() >= *limit {
        put_in_order(places);
        *limit = places.len().saturating_mul(2).max(LEAST_LIMIT);
    }
}

/// Whether the place is the last one.
fn is_last(places: &[Place], place: Place) -> bool
    ensures { IsTrue result → Contains places.now place }
{
    match places.last() {
        Some(last) => *last == place,
        None => false,
    }
}

/// Adds a place, unless it is the last one already, as it mostly is where slab after slab lies in one cell.
fn add_place(places: &mut Vec<Place>, place: Place) -> Result<(), AllocError>
    ensures added { OnOk result (Adds (λ e. e ≡ place) places.old.items places.new.items) }
    ensures count { OnOk result (length places.new.items ≤ length places.old.items + 1) }
{
    if is_last(places, place) {
        return Ok(());
    }
    places.push(place)?;
    Ok(())
}

/// Adds the places of a block in one row of cells.
fn add_row(places: &mut Vec<Place>, row: u32, block: &Block) -> Result<(), AllocError>
    requires { IsSomeBlock block.now }
    ensures added { OnOk result (Adds (IsInRow row block.now) places.old.items places.new.items) }
    ensures count { OnOk result (length places.new.items ≤ length places.old.items + (block.now.column1 - block.now.column0)) }
{
    for column in block.column0..block.column1 {
        add_place(places, (row, column))?;
    }
    Ok(())
}

/// Adds the places of a block.
fn add_block(places: &mut Vec<Place>, limit: &mut usize, block: &Block) -> Result<(), AllocError>
    requires { IsSomeBlock block.now }
    ensures added { OnOk result (Adds (IsInBlock block.now) places.old.items places.new.items) }
    ensures count { OnOk result (length places.new.items ≤ length places.old.items + (block.now.row1 - block.now.row0) * (block.now.column1 - block.now.column0)) }
{
    for row in block.row0..block.row1 {
        add_row(places, row, block)?;
        tidy(places, limit);
    }
    Ok(())
}

/// Adds the places of the cells that the rectangles meet.
fn add_rects(
    places: &mut Vec<Place>,
    limit: &mut usize,
    grid: &Grid,
    rects: &[Rect],
) -> Result<(), AllocError>
    requires sound { IsSound grid.now }
    requires over { AreOver grid.now rects.now }
    ensures added { OnOk result (Adds (IsMetByAny grid.now rects.now) places.old.items places.new.items) }
    ensures count { OnOk result (length places.new.items ≤ length places.old.items + sum_by (cells_met grid.now) rects.now) }
{
    for r in rects {
        let block = grid.block(r);
        add_block(places, limit, &block)?;
    }
    Ok(())
}

/// Adds the places of the cells that slabs of the parts meet.
fn add_parts(
    places: &mut Vec<Place>,
    limit: &mut usize,
    grid: &Grid,
    parts: &[Slabs],
) -> Result<(), AllocError>
    requires sound { IsSound grid.now }
    requires over { All (AreOver grid.now) parts.now }
    ensures added { OnOk result (Adds (IsMetByPart grid.now parts.now) places.old.items places.new.items) }
    ensures count { OnOk result (length places.new.items ≤ length places.old.items + pairs_of grid.now parts.now) }
{
    for part in parts {
        add_rects(places, limit, grid, part.rects())?;
    }
    Ok(())
}

/// The places of the cells that slabs of the parts meet, by row, then by column. While they are found, the list has at most three times as many places as there are such cells, and 65,536 more, however many slabs meet a cell.
pub(crate) fn places_of(
    alloc: Global,
    grid: &Grid,
    parts: &[Slabs],
) -> Result<Vec<Place>, AllocError>
    requires sound { IsSound grid.now }
    requires over { All (AreOver grid.now) parts.now }
    ensures { IfOk result (λ v. ArePlaces grid.now parts.now v.items) }
{
    let mut places = Vec::new(alloc);
    let mut limit = LEAST_LIMIT;
    add_parts(&mut places, &mut limit, grid, parts)?;
    put_in_order(&mut places);
    places.shrink_to_fit();
    Ok(places)
}

/// Whether a block has one cell.
fn has_one_cell(block: &Block) -> bool
    requires { IsSomeBlock block.now }
    ensures { IsTrue result ↔ HasOneCell block.now }
{
    block.row1 - block.row0 == 1 && block.column1 - block.column0 == 1
}

/// The place of the only cell that either of two rectangles meets, if both meet just that one.
pub(crate) fn only_place(grid: &Grid, r: &Rect, s: &Rect) -> Option<Place>
    requires sound { IsSound grid.now }
    requires first { IsOver grid.now r.now }
    requires second { IsOver grid.now s.now }
    ensures { IfSome result (λ place. (e : ℕ × ℕ) → (e ≡ place) ↔ (IsMet grid.now r.now e ⊎ IsMet grid.now s.now e)) }
{
    let one = grid.block(r);
    let other = grid.block(s);
    if !has_one_cell(&one) || !has_one_cell(&other) {
        return None;
    }
    if one.row0 != other.row0 || one.column0 != other.column0 {
        return None;
    }
    Some((one.row0, one.column0))
}

/// The places of the cells that two rectangles meet, by row, then by column.
pub(crate) fn places_of_both(
    alloc: Global,
    grid: &Grid,
    r: &Rect,
    s: &Rect,
) -> Result<Vec<Place>, AllocError>
    requires sound { IsSound grid.now }
    requires first { IsOver grid.now r.now }
    requires second { IsOver grid.now s.now }
    ensures { IfOk result (λ v. (e : ℕ × ℕ) → Contains v.items e ↔ (IsMet grid.now r.now e ⊎ IsMet grid.now s.now e)) }
{
    let one = grid.block(r);
    let other = grid.block(s);
    let mut places = Vec::new(alloc);
    let mut limit = LEAST_LIMIT;
    add_block(&mut places, &mut limit, &one)?;
    add_block(&mut places, &mut limit, &other)?;
    put_in_order(&mut places);
    Ok(places)
}
