//! The root and the parity of each piece.
ghost use Rattle.std.specs.Prelude.{◌≡◌, ◌^◌, ◌<◌, [], length, IfOk};
ghost use Rattle.dpl_stars.specs.Stars.{IsStarList};
ghost use Rattle.dpl_orient.specs.Rooted.{ArePiecesBelow, AreRootsBelow};
ghost use Rattle.dpl_orient.specs.Chart.{own_root, rooted_by, rooted_at, IsChart, AreLow};

use dpl_list::{Id, short_id};
use dpl_stars::Star;
use std::alloc::{AllocError, Global};

/// A piece's component, named by its least piece, and whether the piece is at an odd distance from that one. The
/// piece's number is its place in the chart.
#[derive(Clone, Copy, Drop)]
pub struct Rooted {
    pub root: u32,
    pub odd: bool,
}

/// A piece that no edge touches, as its own root.
fn own_root(piece: u32) -> Rooted
    ensures { result ≡ own_root piece }
{
    Rooted {
        root: piece,
        odd: false,
    }
}

/// What a row says of its piece.
fn rooted_by(row: &Star) -> Rooted
    requires { row.now.root < 2 ^ 32 }
    ensures { result ≡ rooted_by row.now }
{
    Rooted {
        root: row.root as u32,
        odd: row.odd,
    }
}

/// The root of a piece. Past the end of the chart a piece is its own root.
pub fn root_at(chart: &[Rooted], piece: Id) -> Id
    ensures { result ≡ (rooted_at chart.now piece).root }
{
    match chart.get(piece as usize) {
        Some(rooted) => rooted.root as Id,
        None => piece,
    }
}

/// Whether a piece is at an odd distance from its root. Past the end of the chart none is.
pub fn is_odd_at(chart: &[Rooted], piece: Id) -> bool
    ensures { result ≡ (rooted_at chart.now piece).odd }
{
    match chart.get(piece as usize) {
        Some(rooted) => rooted.odd,
        None => false,
    }
}

/// The chart of the pieces below `n`, as if no edge touched them. 2^32 pieces or more are refused as out of memory.
fn own_roots(alloc: Global, n: Id) -> Result<Vec<Rooted>, AllocError>
    ensures chart { IfOk result (λ v. IsChart [] n v.items) }
    ensures few { IfOk result (λ _. n < 2 ^ 32) }
{
    let n = short_id(n)?;
    let mut chart = Vec::with_capacity(alloc, n as usize)?;
    for v in 0..n {
        chart.push(own_root(v))?;
    }
    Ok(chart)
}

/// Puts the rows in at their pieces.
fn put_rows(chart: &mut [Rooted], rows: &[Star])
    requires own { IsChart [] (length chart.old) chart.old }
    requires below { ArePiecesBelow (length chart.old) rows.now }
    requires roots { AreRootsBelow (2 ^ 32) rows.now }
    ensures { IsChart rows.now (length chart.old) chart.new }
{
    for row in rows {
        chart[row.piece as usize] = rooted_by(row);
    }
}

/// The root and the parity of each piece below `n`: by its row, or its own root where no edge touches it.
/// 2^32 pieces or more are refused as out of memory, which so many pieces would be.
pub fn chart(alloc: Global, n: Id, rows: &[Star]) -> Result<Vec<Rooted>, AllocError>
    requires ordered { IsStarList rows.now }
    requires below { ArePiecesBelow n rows.now }
    ensures chart { IfOk result (λ v. IsChart rows.now n v.items) }
    ensures low { IfOk result (λ v. AreLow v.items) }
    ensures few { IfOk result (λ _. n < 2 ^ 32) }
{
    let mut chart = own_roots(alloc, n)?;
    put_rows(&mut chart, rows);
    Ok(chart)
}
