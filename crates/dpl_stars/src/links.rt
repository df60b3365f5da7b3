//! Edges that stand for the rows of a summary.
ghost use Rattle.std.specs.Prelude.{◌≡◌, ◌≢◌, ◌<◌, IfOk, map};
ghost use Rattle.dpl_stars.specs.Stars.{IsStarList};
ghost use Rattle.dpl_stars.specs.Links.{Joins, HasMates, AreLinks};

use crate::list::Star;
use crate::places::Places;
use dpl_list::{Edge, Id};
use std::alloc::{AllocError, Global};

/// The piece of each row, in the order of the rows.
fn pieces_of(alloc: Global, rows: &[Star]) -> Result<Vec<Id>, AllocError>
    ensures { IfOk result (λ v. v.items ≡ map (λ r. r.piece) rows.now) }
{
    rows.iter().map(|r| r.piece).collect(alloc)
}

/// At the place of each root the piece of an odd row of that root, elsewhere 0.
fn mates_of(alloc: Global, places: &Places, rows: &[Star]) -> Result<Vec<Id>, AllocError>
    requires rows { IsStarList rows.now }
    requires places { places.now ≡ map (λ r. r.piece) rows.now }
    ensures { IfOk result (λ v. HasMates places.now rows.now rows.now v.items) }
{
    let mut mates = vec![in alloc; 0; rows.len()]?;
    for row in rows {
        if row.odd {
            mates[places.place(row.root) as usize] = row.piece;
        }
    }
    Ok(mates)
}

/// The edge between two pieces, the smaller first.
fn edge(a: Id, b: Id) -> Edge
    requires { a ≢ b }
    ensures rising { result.0 < result.1 }
    ensures joins { Joins result a b }
{
    if a < b { (a, b) } else { (b, a) }
}

/// Edges whose graph has these rows as its summary, if they are the summary of a graph: an odd row is joined to its
/// root, an even one to an odd row of its root.
pub fn links(alloc: Global, rows: &[Star]) -> Result<Vec<Edge>, AllocError>
    requires { IsStarList rows.now }
    ensures { IfOk result (λ v. AreLinks rows.now rows.now v.items) }
{
    let places = Places::of(alloc, pieces_of(alloc, rows)?)?;
    let mates = mates_of(alloc, &places, rows)?;
    let mut links = Vec::with_capacity(alloc, rows.len())?;
    for row in rows {
        if row.piece != row.root {
            let other = if row.odd {
                row.root
            } else {
                mates[places.place(row.root) as usize]
            };
            links.push(edge(other, row.piece))?;
        }
    }
    Ok(links)
}
