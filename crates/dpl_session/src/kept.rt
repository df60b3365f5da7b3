//! The tiles of a layer, made from those that were kept of another.
ghost use Rattle.std.specs.Prelude.{◌≡◌, ℕ, ◌+◌, ◌<◌, ◌≤◌, ◌⊎◌, [], ◌∷◌, ◌++◌, IfOk, OnOk, List, length};
ghost use Rattle.std.specs.List.{All, AllPairs};
ghost use Rattle.dpl_spec_split.specs.declared.Pt.{Pt};
ghost use Rattle.dpl_spec_split.specs.declared.Rect.{Rect};
ghost use Rattle.dpl_spec_split.specs.Slabs.{Before, IsSolid};
ghost use Rattle.dpl_spec_split.specs.Squares.{Covers};
ghost use Rattle.dpl_slabs.specs.Parts.{union_of};
ghost use Rattle.dpl_session.specs.declared.tile.Tile.{Tile};
ghost use Rattle.dpl_session.specs.Kept.{AddsConflicts, AddsTile, AreCells, AreFoundIn, AreKept, AreTilesOf, HasItsEdges, IsChanged, IsChangedAmong, IsClose, IsFresh, IsNew, IsTileOf};
ghost use Rattle.dpl_session.specs.Tiles.{TookFew, window};
ghost use Rattle.dpl_session.specs.Windows.{AreWhole};

use crate::cells::Cells;
use crate::edges::add_named;
use crate::index::Index;
use crate::steps::Steps;
use crate::tile::{Tile, conflicts_in};
use crate::window::window_of;
use dpl_base::{Edge, Id, Spacing, WideRect};
use std::alloc::{AllocError, Global};
use std::sync::ledger::Ledger;

/// Tiles by row, then by column, and the conflicts of pieces, smaller number first.
#[derive(Drop)]
pub(crate) struct Found {
    pub(crate) tiles: Vec<Tile>,
    pub(crate) edges: Vec<Edge>,
}

/// The window of a cell: so many columns and rows more on each side.
fn around(cell: &WideRect, rule: u32) -> WideRect
    requires { IsClose cell.now }
    ensures { result ≡ window rule cell.now }
{
    let rule = rule as i64;
    WideRect::new(
        cell.x0() - rule,
        cell.y0() - rule,
        cell.x1() + rule,
        cell.y1() + rule,
    )
}

/// The same cell.
fn copy_of(cell: &WideRect) -> WideRect
    ensures { result ≡ cell.now }
{
    WideRect::new(cell.x0(), cell.y0(), cell.x1(), cell.y1())
}

/// Adds the tile of a cell, and its conflicts. What `first` holds doesn't matter; it has a place for each feature.
fn add_tile<L: Ledger>(
    found: &mut Found,
    alloc: Global,
    index: &Index,
    cell: &WideRect,
    old: &[Tile],
    spacing: Spacing,
    first: &mut [Id],
    steps: &mut Steps<L>,
) -> Result<(), AllocError>
    requires corner { spacing.corner ≤ spacing.rule }
    requires whole { AreWhole index.now.parts }
    requires owners { All (λ k. k < length first.old) index.now.owners }
    requires kept { AreKept spacing old.now }
    requires close { IsClose cell.now }
    requires solid { IsSolid cell.now }
    ensures tile { OnOk result ((t : Tile) × (found.new.tiles.items ≡ found.old.tiles.items ++ t ∷ []) × (t.cell ≡ cell.now) × IsTileOf spacing.rule index.now.parts index.now.owners t × HasItsEdges spacing t) }
    ensures edges { OnOk result (AddsConflicts spacing index.now.parts index.now.owners cell.now found.old.edges.items found.new.edges.items) }
    ensures step { (steps.new ≡ steps.old) ⊎ ((steps.new ≡ steps.old + 1) × IsNew spacing.rule old.now index.now.parts index.now.owners cell.now) }
    ensures room { length first.new ≡ length first.old }
{
    let around = around(cell, spacing.rule);
    let window = window_of(alloc, index, &around, first)?;
    let edges = conflicts_in(alloc, old, cell, &window, spacing, steps)?;
    add_named(&mut found.edges, window.names.items(), edges.items())?;
    found.tiles.push(Tile {
        cell: copy_of(cell),
        slabs: window.slabs,
        labels: window.labels,
        edges,
    })?;
    Ok(())
}

/// Adds the tile of a cell, and its conflicts, where the cell has a square of a piece. What `first` holds doesn't matter; it has a place for each feature.
fn add_if_met<L: Ledger>(
    found: &mut Found,
    alloc: Global,
    index: &Index,
    cell: &WideRect,
    old: &[Tile],
    spacing: Spacing,
    first: &mut [Id],
    steps: &mut Steps<L>,
) -> Result<(), AllocError>
    requires corner { spacing.corner ≤ spacing.rule }
    requires whole { AreWhole index.now.parts }
    requires owners { All (λ k. k < length first.old) index.now.owners }
    requires kept { AreKept spacing old.now }
    requires close { IsClose cell.now }
    requires solid { IsSolid cell.now }
    ensures tile { OnOk result (AddsTile spacing index.now.parts index.now.owners cell.now found.old.tiles.items found.old.edges.items found.new.tiles.items found.new.edges.items) }
    ensures step { (steps.new ≡ steps.old) ⊎ ((steps.new ≡ steps.old + 1) × IsChanged spacing.rule old.now index.now.parts index.now.owners cell.now) }
    ensures room { length first.new ≡ length first.old }
{
    if !index.meets(cell) {
        return Ok(());
    }
    add_tile(found, alloc, index, cell, old, spacing, first, steps)
}

/// The tiles of all cells with a square of a piece, and their conflicts in no order. What `first` holds doesn't matter; it has a place for each feature.
fn all_found<L: Ledger>(
    alloc: Global,
    index: &Index,
    cells: &[WideRect],
    old: &[Tile],
    spacing: Spacing,
    first: &mut [Id],
    steps: &mut Steps<L>,
) -> Result<Found, AllocError>
    requires corner { spacing.corner ≤ spacing.rule }
    requires whole { AreWhole index.now.parts }
    requires owners { All (λ k. k < length first.old) index.now.owners }
    requires kept { AreKept spacing old.now }
    requires close { All IsClose cells.now }
    requires solid { All IsSolid cells.now }
    requires rising { AllPairs Before cells.now }
    ensures tiles { IfOk result (λ f. AreFoundIn spacing index.now.parts index.now.owners cells.now (length cells.now) f.tiles.items f.edges.items) }
    ensures steps { TookFew (IsChangedAmong cells.now spacing.rule old.now index.now.parts index.now.owners) steps.old steps.new }
{
    let mut found = Found {
        tiles: Vec::new(alloc),
        edges: Vec::new(alloc),
    };
    for cell in cells {
        add_if_met(&mut found, alloc, index, cell, old, spacing, first, steps)?;
    }
    Ok(found)
}

/// The tiles of a layer, and the conflicts of its pieces, smaller number first, in order, each once. Each step is a tile whose window isn't as one of the cell among the old tiles. What `first` holds doesn't matter; it has a place for each feature.
///
/// The error: out of memory.
pub(crate) fn tiles_of<L: Ledger>(
    alloc: Global,
    index: &Index,
    cells: &Cells,
    old: &[Tile],
    spacing: Spacing,
    first: &mut [Id],
    steps: &mut Steps<L>,
) -> Result<Found, AllocError>
    requires corner { spacing.corner ≤ spacing.rule }
    requires whole { AreWhole index.now.parts }
    requires owners { All (λ k. k < length first.old) index.now.owners }
    requires kept { AreKept spacing old.now }
    requires cells { (layer : List Rect) × AreCells (Covers layer) cells.now.side cells.now.cells.items × ((p : Pt) → union_of index.now.parts p → Covers layer p) }
    ensures tiles { IfOk result (λ f. AreTilesOf spacing index.now.parts index.now.owners cells.now.cells.items f.tiles.items f.edges.items) }
    ensures steps { TookFew (IsFresh spacing.rule old.now cells.now.side index.now.parts index.now.owners) steps.old steps.new }
{
    let mut found = all_found(alloc, index, &cells.cells, old, spacing, first, steps)?;
    found.edges.sort_unstable();
    found.edges.dedup();
    Ok(found)
}
