//! The places of the pieces that edges touch, which stand for them as the vertices of a graph.
ghost use Rattle.std.specs.Prelude.{◌≡◌, ◌≤◌, ◌<◌, length, slice_index, IfOk};
ghost use Rattle.std.specs.List.{AllPairs, Contains};
ghost use Rattle.dpl_stars.specs.Places.{AreTouched, ArePlaced};
ghost use Rattle.dpl_stars.specs.Sums.{AreEdgePairs};

use crate::table::{Table, table_of};
use dpl_list::{Edge, Id};
use std::alloc::{AllocError, Global};
use std::marker::Model;

/// Pieces in order, and where each of them stands. A contract sees the list of the pieces.
#[derive(Drop)]
pub struct Places {
    pieces: Vec<Id>,
    /// Where each piece stands, if they lie close together.
    table: Option<Table>,
}

impl Model for Places {
    ghost use Rattle.std.specs.Prelude.{ℕ, List};

    ghost Value = { List ℕ };

    ghost view = { λ p. p.pieces.items };

    ghost use Rattle.dpl_stars.specs.Tables.{HasPlaces};

    ghost invariant = { λ p. HasPlaces p.pieces.items p.table };
}

/// Where a piece stands among rising pieces, by binary search.
fn search(pieces: &[Id], piece: Id) -> Id
    requires rising { AllPairs (λ a b. a < b) pieces.now }
    requires there { Contains pieces.now piece }
    ensures within { result < length pieces.now }
    ensures at { slice_index pieces.now result ≡ piece }
{
    match pieces.binary_search(&piece) {
        Ok(k) => k as Id,
        Err(_) => unreachable!(),
    }
}

impl Places {
    /// The places of these pieces.
    pub fn of(alloc: Global, pieces: Vec<Id>) -> Result<Places, AllocError>
        requires { AllPairs (λ a b. a < b) pieces.items }
        ensures { IfOk result (λ places. places ≡ pieces.items) }
    {
        let table = table_of(alloc, &pieces)?;
        Ok(Places { pieces, table })
    }

    /// The pieces, rising; place k is that of the k-th.
    pub fn pieces(&self) -> &[Id]
        ensures { result.now ≡ self.now }
    {
        self.pieces.as_slice()
    }

    /// Where one of the pieces stands: by the table, or by binary search where there is none.
    pub fn place(&self, piece: Id) -> Id
        requires { Contains self.now piece }
        ensures within { result < length self.now }
        ensures at { slice_index self.now result ≡ piece }
    {
        match &self.table {
            Some(table) => table.places[(piece - table.least) as usize] as Id,
            None => search(self.pieces.as_slice(), piece),
        }
    }
}

/// The edges by the places of their ends.
pub fn placed(alloc: Global, places: &Places, edges: &[Edge]) -> Result<Vec<Edge>, AllocError>
    requires pairs { AreEdgePairs edges.now }
    requires touched { AreTouched edges.now places.now }
    ensures { IfOk result (λ v. ArePlaced places.now edges.now v.items) }
{
    let mut placed = Vec::with_capacity(alloc, edges.len())?;
    for edge in edges {
        placed.push((places.place(edge.0), places.place(edge.1)))?;
    }
    Ok(placed)
}
