//! Jobs of a few tiles, and the rows of summaries.
ghost use Rattle.std.specs.Prelude.{[], ◌∷◌, replicate, IfOk, OnOk};
ghost use Rattle.dpl_stars.specs.Sums.{AreEdgePairs};

use dpl_board::{BoardState, Job};
use dpl_list::{Edge, Id};
use dpl_stars::{Joined, Star, stars};
use std::alloc::{AllocError, Global};

/// Tiles without edges.
#[derive(Drop)]
pub struct Bare {
    pub tiles: u32,
}

impl Job for Bare {
    ghost sheet = { λ job. replicate job.tiles [] };

    fn tiles(&self) -> u32 {
        self.tiles
    }

    fn summary(&self, alloc: Global, _tile: u32) -> Result<Joined, AllocError> {
        Ok(Joined::new(alloc))
    }
}

/// Two tiles without edges.
pub struct TwoTiles;

impl Job for TwoTiles {
    ghost sheet = { λ _. [] ∷ [] ∷ [] };

    fn tiles(&self) -> u32 {
        2
    }

    fn summary(&self, alloc: Global, _tile: u32) -> Result<Joined, AllocError> {
        Ok(Joined::new(alloc))
    }
}

/// Three tiles: an edge from 0 to 1, one from 1 to 2, and the edges of a star.
#[derive(Drop)]
pub struct PathAndStar {
    pub edges: Vec<Edge>,
    ghost pairs: { AreEdgePairs edges.items },
}

/// Adds an edge from 2 to the k-th number above it.
fn add_edge(edges: &mut Vec<Edge>, k: u16) -> Result<(), AllocError>
    requires { AreEdgePairs edges.old.items }
    ensures { OnOk result (AreEdgePairs edges.new.items) }
{
    edges.push((2, 3 + k as u64))?;
    Ok(())
}

/// The edges from 2 to so many numbers above it.
fn star(alloc: Global, count: u16) -> Result<Vec<Edge>, AllocError>
    ensures { IfOk result (λ v. AreEdgePairs v.items) }
{
    let mut edges = Vec::new(alloc);
    for k in 0..count {
        add_edge(&mut edges, k)?;
    }
    Ok(edges)
}

impl PathAndStar {
    /// The tiles, with so many edges in the star.
    pub fn new(alloc: Global, count: u16) -> Result<PathAndStar, AllocError> {
        let edges = star(alloc, count)?;
        Ok(PathAndStar { edges })
    }
}

impl Job for PathAndStar {
    ghost sheet = { λ job. ((0, 1) ∷ []) ∷ ((1, 2) ∷ []) ∷ job.edges.items ∷ [] };

    fn tiles(&self) -> u32 {
        3
    }

    fn summary(&self, alloc: Global, tile: u32) -> Result<Joined, AllocError> {
        match tile {
            0 => stars(alloc, &[(0, 1)]),
            1 => stars(alloc, &[(1, 2)]),
            2 => stars(alloc, &self.edges),
            _ => Err(AllocError),
        }
    }
}

/// The rows of a summary, if there is no odd cycle.
pub fn rows_of(joined: &Joined) -> Option<&[Star]> {
    match joined {
        Joined::Stars(rows) => Some(rows.items()),
        Joined::Odd => None,
    }
}

/// Whether a summary has just these rows: the piece, the root, and whether it is odd.
pub fn has_rows(joined: &Joined, want: &[(Id, Id, bool)]) -> bool {
    let Some(rows) = rows_of(joined) else {
        return false;
    };
    rows.len() == want.len()
        && rows
            .iter()
            .zip(want)
            .all(|(row, want)| (row.piece, row.root, row.odd) == *want)
}

/// Whether each of so many tiles is posted once.
pub fn is_posted(state: &BoardState, tiles: u32) -> bool {
    state.history().len() == tiles as usize && state.first_missing().is_none()
}
