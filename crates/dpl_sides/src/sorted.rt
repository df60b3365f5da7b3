//! Pieces by their least squares.
ghost use Rattle.std.specs.Prelude.{◌≡◌, ◌<◌, IfOk, OnOk, length};
ghost use Rattle.std.specs.List.{All};
ghost use Rattle.std.specs.List.Sorted.{IsPermutation};
ghost use Rattle.dpl_sides.specs.Noted.{IsSortedWith};
ghost use Rattle.dpl_sides.specs.Pieces.{least_key, RiseByLeast};

use crate::arrange::arrange;
use crate::noted::Noted;
use crate::piece::Piece;
use crate::rank::{number_all, ranked, ranks_of};
use dpl_base::{Id, short_id};
use dpl_slabs::Slabs;
use dpl_sort::sort_by_key;
use std::alloc::{AllocError, Global};

/// The row and the column of the first slab's lower left corner.
pub fn least_key(part: &Slabs) -> (i32, i32)
    ensures { result ≡ least_key part.now }
{
    match part.rects().first() {
        Some(r) => (r.y0, r.x0),
        None => (0, 0),
    }
}

/// Sorts pieces by their least squares. Each has its place for its number.
fn sort_by_least(alloc: Global, pieces: &mut Vec<Piece>) -> Result<(), AllocError>
    ensures same { OnOk result (IsPermutation pieces.old.items pieces.new.items) }
    ensures rise { OnOk result (RiseByLeast pieces.new.items) }
{
    arrange(alloc, pieces)?;
    sort_by_key(pieces, |piece| least_key(&piece.part));
    Ok(())
}

/// Sorts pieces by their least squares. The numbers that were noted are those of pieces by place; returns their places once they are sorted. The error: out of memory; 2^32 pieces or more are refused as that, which so many would be.
pub fn sort_with_sides(
    alloc: Global,
    pieces: &mut Vec<Piece>,
    noted: Noted,
) -> Result<Vec<(u32, u32)>, AllocError>
    requires each { length noted.seconds.items ≡ length noted.firsts.items }
    requires firsts { All (λ k. k < length pieces.old.items) noted.firsts.items }
    requires seconds { All (λ k. k < length pieces.old.items) noted.seconds.items }
    ensures { IfOk result (λ v. IsSortedWith pieces.old.items pieces.new.items noted.firsts.items noted.seconds.items v.items) }
{
    short_id(pieces.len() as Id)?;
    number_all(pieces);
    sort_by_least(alloc, pieces)?;
    let ranks = ranks_of(alloc, pieces)?;
    ranked(alloc, &ranks, &noted.firsts, &noted.seconds)
}
