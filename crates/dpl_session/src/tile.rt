//! A tile, and whether it is as it was.
ghost use Rattle.std.specs.Prelude.{◌≡◌, ℕ, ◌+◌, ◌<◌, ◌≤◌, ◌⊎◌, ◌↔◌, IfOk, IfSome, IsNone, IsTrue, length, slice_index_or};
ghost use Rattle.std.specs.List.{All, AllPairs, Contains};
ghost use Rattle.dpl_spec_split.specs.declared.Rect.{Rect};
ghost use Rattle.dpl_spec_split.specs.Graphs.{AreEdges};
ghost use Rattle.dpl_spec_split.specs.Pieces.{Conflict};
ghost use Rattle.dpl_spec_split.specs.Slabs.{Before};
ghost use Rattle.dpl_session.specs.declared.tile.Tile.{Tile};
ghost use Rattle.dpl_session.specs.Kept.{AreKept, IsAmong, IsStart, RiseByCell};
ghost use Rattle.dpl_session.specs.Windows.{each_alone};

use crate::edges::{TileEdges, edges_of};
use crate::steps::Steps;
use crate::window::Window;
use dpl_base::{Id, Listed, Spacing, WideRect};
use dpl_slabs::Slabs;
use std::alloc::{AllocError, Global};
use std::sync::ledger::Ledger;

/// A cell with a square of a piece, and of its window the slabs of pieces, their labels, and their conflicts by their numbers.
#[derive(Drop)]
pub(crate) struct Tile {
    pub(crate) cell: WideRect,
    pub(crate) slabs: Slabs,
    pub(crate) labels: Listed<Id>,
    pub(crate) edges: TileEdges,
}

/// Whether a cell goes before another, by row, then by column.
fn precedes(a: &WideRect, b: &WideRect) -> bool
    ensures { IsTrue result ↔ Before a.now b.now }
{
    if a.y0() == b.y0() {
        return a.x0() < b.x0();
    }
    a.y0() < b.y0()
}

/// The number of the first tile that doesn't go before the cell.
fn start_of(tiles: &[Tile], cell: &WideRect) -> usize
    requires rise { RiseByCell tiles.now }
    ensures { IsStart tiles.now cell.now result }
{
    let mut low = 0;
    let mut high = tiles.len();
    while low < high {
        let middle = low + (high - low) / 2;
        if precedes(&tiles[middle].cell, cell) {
            low = middle + 1;
        } else {
            high = middle;
        }
    }
    low
}

/// Whether the two lists are one.
fn same(a: &[Id], b: &[Id]) -> bool
    ensures { IsTrue result ↔ (a.now ≡ b.now) }
{
    if a.len() != b.len() {
        return false;
    }
    for i in 0..a.len() {
        if a[i] != b[i] {
            return false;
        }
    }
    true
}

/// Whether the two sets are one.
fn same_slabs(a: &Slabs, b: &Slabs) -> bool
    ensures { IsTrue result ↔ (a.now ≡ b.now) }
{
    if a.rects().len() != b.rects().len() {
        return false;
    }
    a.equal(b)
}

/// Whether the tile has these slabs and labels.
fn is_as(tile: &Tile, window: &Window) -> bool
    ensures { IsTrue result ↔ ((tile.now.slabs ≡ window.now.slabs) × (tile.now.labels ≡ window.now.labels)) }
{
    if !same_slabs(&tile.slabs, &window.slabs) {
        return false;
    }
    same(tile.labels.items(), window.labels.items())
}

/// The number of a tile with the slabs and labels of this window. There is none only if no tile of the cell has them.
fn find(tiles: &[Tile], cell: &WideRect, window: &Window) -> Option<usize>
    requires { RiseByCell tiles.now }
    ensures some { IfSome result (λ n. (n < length tiles.now) × ((t : Tile) → ((slice_index_or tiles.now n t).slabs ≡ window.now.slabs) × ((slice_index_or tiles.now n t).labels ≡ window.now.labels))) }
    ensures none { IsNone result → ¬ IsAmong tiles.now cell.now window.now.slabs window.now.labels }
{
    let n = start_of(tiles, cell);
    if n >= tiles.len() {
        return None;
    }
    if is_as(&tiles[n], window) {
        return Some(n);
    }
    None
}

/// The conflicts of a cell's window: those of the tile that is as the window is, if one of the cell is among the tiles, else they are looked for in one step.
///
/// The error: out of memory.
pub(crate) fn conflicts_in<L: Ledger>(
    alloc: Global,
    tiles: &[Tile],
    cell: &WideRect,
    window: &Window,
    spacing: Spacing,
    steps: &mut Steps<L>,
) -> Result<TileEdges, AllocError>
    requires corner { spacing.corner ≤ spacing.rule }
    requires labels { length window.now.labels ≡ length window.now.slabs }
    requires kept { AreKept spacing tiles.now }
    ensures edges { IfOk result (AreEdges (Conflict spacing (each_alone window.now.slabs) window.now.labels)) }
    ensures step { (steps.new ≡ steps.old) ⊎ ((steps.new ≡ steps.old + 1) × ¬ IsAmong tiles.now cell.now window.now.slabs window.now.labels) }
{
    if let Some(n) = find(tiles, cell, window) {
        return tiles[n].edges.copy(alloc);
    }
    edges_of(alloc, &window.slabs, window.labels.items(), spacing, steps)
}
