//! The rows of a summary, read off the roots and levels of a graph.
ghost use Rattle.std.specs.Prelude.{◌≡◌, ◌<◌, length, IfOk, IsTrue, ◌↔◌};
ghost use Rattle.std.specs.List.{All};
ghost use Rattle.dpl_stars.specs.Levels.{AreEdgesBelow};
ghost use Rattle.dpl_stars.specs.Places.{IsLevelled, AreRows};

use crate::list::Star;
use dpl_list::{Edge, Id};
use std::alloc::{AllocError, Global};

/// Whether some edge joins two places of one level.
pub fn is_levelled(edges: &[Edge], levels: &[Id]) -> bool
    requires { AreEdgesBelow (length levels.now) edges.now }
    ensures { IsTrue result ↔ IsLevelled levels.now edges.now }
{
    edges
        .iter()
        .any(|e| levels[e.0 as usize] == levels[e.1 as usize])
}

/// A row for each piece, by the root and the level of its place.
pub fn rows(
    alloc: Global,
    pieces: &[Id],
    roots: &[Id],
    levels: &[Id],
) -> Result<Vec<Star>, AllocError>
    requires roots { length roots.now ≡ length pieces.now }
    requires levels { length levels.now ≡ length pieces.now }
    requires below { All (λ r. r < length pieces.now) roots.now }
    ensures { IfOk result (λ v. AreRows pieces.now roots.now levels.now (length pieces.now) v.items) }
{
    let mut rows = Vec::with_capacity(alloc, pieces.len())?;
    for i in 0..pieces.len() {
        rows.push(Star {
            piece: pieces[i],
            root: pieces[roots[i] as usize],
            odd: levels[i] % 2 == 1,
        })?;
    }
    Ok(rows)
}
