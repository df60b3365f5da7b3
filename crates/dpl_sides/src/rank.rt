//! The places of pieces once they are sorted.
ghost use Rattle.std.specs.Prelude.{ℕ, ◌≡◌, ◌^◌, ◌<◌, length, IfOk};
ghost use Rattle.std.specs.List.{All};
ghost use Rattle.dpl_sides.specs.Noted.{number_at, AreNumbered, AreRanked, AreRanksBelow};

use crate::piece::Piece;
use std::alloc::{AllocError, Global};

/// Gives each piece its place for its number.
pub fn number_all(pieces: &mut [Piece])
    requires { length pieces.old < 2 ^ 32 }
    ensures { AreNumbered pieces.old pieces.new }
{
    for i in 0..pieces.len() {
        pieces[i].number = i as u32;
    }
}

/// Notes the place of each piece for the piece's number.
fn note_places(ranks: &mut [u32], pieces: &[Piece])
    requires each { length ranks.old ≡ length pieces.now }
    requires few { length pieces.now < 2 ^ 32 }
    requires known { (i : ℕ) → i < length pieces.now → number_at pieces.now i < length pieces.now }
    ensures { AreRanksBelow pieces.now (length pieces.now) ranks.new }
{
    for i in 0..pieces.len() {
        ranks[pieces[i].number as usize] = i as u32;
    }
}

/// The places of the pieces by their numbers.
pub fn ranks_of(alloc: Global, pieces: &[Piece]) -> Result<Vec<u32>, AllocError>
    requires few { length pieces.now < 2 ^ 32 }
    requires known { (i : ℕ) → i < length pieces.now → number_at pieces.now i < length pieces.now }
    ensures { IfOk result (λ v. AreRanksBelow pieces.now (length pieces.now) v.items) }
{
    let mut ranks = vec![in alloc; 0; pieces.len()]?;
    note_places(&mut ranks, pieces);
    Ok(ranks)
}

/// The places of the pieces of these numbers, in pairs.
pub fn ranked(
    alloc: Global,
    ranks: &[u32],
    firsts: &[u32],
    seconds: &[u32],
) -> Result<Vec<(u32, u32)>, AllocError>
    requires each { length seconds.now ≡ length firsts.now }
    requires firsts { All (λ k. k < length ranks.now) firsts.now }
    requires seconds { All (λ k. k < length ranks.now) seconds.now }
    ensures { IfOk result (λ v. AreRanked ranks.now firsts.now seconds.now v.items) }
{
    let mut sides = Vec::with_capacity(alloc, firsts.len())?;
    for i in 0..firsts.len() {
        sides.push((ranks[firsts[i] as usize], ranks[seconds[i] as usize]))?;
    }
    Ok(sides)
}
