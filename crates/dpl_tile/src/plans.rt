//! A plan of tiles.
ghost use Rattle.std.specs.Prelude.{◌≡◌, ◌<◌, ◌≤◌, length, slice_get, IfSome, Some};
ghost use Rattle.dpl_spec_split.specs.Slabs.{IsSolid};
ghost use Rattle.dpl_slabs.specs.Parts.{AreParts};
ghost use Rattle.dpl_spec_split.specs.declared.Pt.{Pt};
ghost use Rattle.dpl_spec_split.specs.Squares.{Has};
ghost use Rattle.dpl_tile.specs.Meetings.{AreItemsOf};
ghost use Rattle.dpl_tile.specs.Plans.{HaveAllNear};

use crate::finding::found_at;
use crate::grid::{Grid, Place};
use crate::meetings::Meeting;
use dpl_base::{Id, Spacing, WideRect};
use dpl_join::Item;
use dpl_slabs::Parts;
use std::marker::Model;

/// The pieces of a layer, their owners and a spacing, cut into tiles. A contract sees the pieces' slabs, their owners, the spacing, the tiles' cells, and all slabs in a row.
#[derive(Drop)]
pub struct Plan<'a> {
    pub(crate) parts: &'a Parts,
    pub(crate) owners: &'a [Id],
    pub(crate) spacing: Spacing,
    pub(crate) items: Vec<Item>,
    pub(crate) meetings: Vec<Meeting>,
    pub(crate) grid: Grid,
    pub(crate) places: Vec<Place>,
}

impl<'a> Model for Plan<'a> {
    ghost use Rattle.std.specs.Prelude.{◌≡◌, ◌<◌, ◌≤◌, ◌^◌, length, map};
    ghost use Rattle.dpl_tile.specs.Tiles.{cell_at};
    ghost use Rattle.dpl_tile.specs.Plans.{Planned};
    ghost use Rattle.dpl_tile.specs.Meetings.{IsKept};

    ghost Value = { Planned };

    ghost view = { λ p. record { parts = p.parts.now; owners = p.owners.now; spacing = p.spacing; cells = map (cell_at p.grid) p.places.items; items = p.items.items } };

    ghost invariant = { λ p. IsKept p.parts.now p.owners.now p.spacing p.items.items p.meetings.items p.grid p.places.items };
}

impl<'a> Plan<'a> {
    /// How many tiles there are.
    pub fn tiles(&self) -> u32
        ensures { result ≡ length self.now.cells }
    {
        self.places.len() as u32
    }

    /// The cell of a tile: its columns and rows, in database units. Tiles are numbered by row, then by column.
    pub fn cell(&self, tile: u32) -> WideRect
        requires { tile < length self.now.cells }
        ensures value { slice_get self.now.cells tile ≡ Some result }
        ensures solid { IsSolid result }
    {
        self.grid.cell(self.places[tile as usize])
    }

    /// The pieces.
    pub fn parts(&self) -> &'a Parts
        ensures { result.now ≡ self.now.parts }
    {
        self.parts
    }

    /// How far apart pieces of different owners stay, in database units.
    pub fn spacing(&self) -> Spacing
        ensures value { result ≡ self.now.spacing }
        ensures corner { self.now.spacing.corner ≤ self.now.spacing.rule }
    {
        self.spacing
    }

    /// The slabs of all pieces, each with the number of its piece.
    pub fn items(&self) -> &[Item]
        ensures value { result.now ≡ self.now.items }
        ensures items { AreItemsOf self.now.parts self.now.items }
        ensures parts { AreParts self.now.parts }
    {
        self.items.as_slice()
    }

    /// The meetings of slabs of different owners, among them all that are near.
    pub fn meetings(&self) -> &[Meeting]
        ensures { HaveAllNear self.now (λ (p : Pt). Unit {0}) result.now }
    {
        self.meetings.as_slice()
    }

    /// The meetings of slabs of different owners in a tile, among them all that are near by a square in its cell.
    pub fn meetings_in(&self, tile: u32) -> &[Meeting]
        requires { tile < length self.now.cells }
        ensures { IfSome (slice_get self.now.cells tile) (λ cell. HaveAllNear self.now (Has cell) result.now) }
    {
        found_at(self.meetings.as_slice(), self.places[tile as usize])
    }
}
