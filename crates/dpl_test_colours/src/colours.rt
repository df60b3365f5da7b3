//! The colours of worked graphs.
use dpl_list::Id;
use dpl_orient::{Mask, are_sides_below, fewer, is_even_below, orient};
use dpl_stars::{Joined, stars};
use std::alloc::{AllocError, Global};
use std::test::Fail;

/// The first mask.
const A: Mask = Mask::A;

/// The second mask.
const B: Mask = Mask::B;

/// Sides that a later component's flip saves stitches of.
const FLIPPED: [(Id, Id); 6] = [(0, 2), (0, 4), (1, 5), (0, 4), (2, 5), (3, 4)];

/// Sides by which the pieces 0 and 1 gain once later ones are flipped.
const LOWER: [(Id, Id); 7] = [(3, 6), (7, 5), (4, 3), (4, 2), (7, 2), (1, 3), (6, 4)];

/// The edges of the pieces 0 and 1, 2 and 3, and so on, summed up: four of them, or three.
fn pairs(alloc: Global, are_four: bool) -> Result<Joined, AllocError> {
    if are_four {
        stars(alloc, &[(0, 1), (2, 3), (4, 5), (6, 7)])
    } else {
        stars(alloc, &[(0, 1), (2, 3), (4, 5)])
    }
}

/// The letters of so many pieces, whose edges are summed up.
fn letters(
    alloc: Global,
    joined: &Joined,
    n: Id,
    sides: &[(Id, Id)],
) -> Result<Vec<Mask>, AllocError> {
    if !is_even_below(n, joined) || !are_sides_below(n, sides) {
        return Ok(Vec::new(alloc));
    }
    let colours = orient(alloc, n, sides, joined)?;
    Ok(colours.into_vec())
}

/// Whether so many pieces, of which three edges touch the first six, have these letters.
fn has_letters(
    alloc: Global,
    n: Id,
    sides: &[(Id, Id)],
    want: &[Mask],
) -> Result<bool, AllocError> {
    let joined = pairs(alloc, false)?;
    Ok(letters(alloc, &joined, n, sides)?.as_slice() == want)
}

/// How many pieces there are, the sides, and the letters.
static LETTERS: [(Id, &[(Id, Id)], &[Mask]); 2] = [
    (6, &FLIPPED, &[A, B, A, B, A, B]),
    // Piece 6 alone differs from piece 1 and is flipped; piece 7 agrees with one side and differs from another.
    (
        8,
        &[(0, 1), (6, 1), (1, 7), (7, 0)],
        &[A, B, A, B, A, B, B, A],
    ),
];

#[test]
fn later_components_flip_where_that_saves_stitches(rt: HostRuntime) -> Result<(), Fail> {
    for &(n, sides, want) in &LETTERS {
        assert!(rt; has_letters(rt.alloc(), n, sides, want)?);
    }
    Ok(())
}

/// The letters with fewer stitches of so many pieces, whose edges are summed up. The component of the fixed piece stays.
fn fewer_letters(
    alloc: Global,
    joined: &Joined,
    n: Id,
    sides: &[(Id, Id)],
    fixed: Option<Id>,
) -> Result<Vec<Mask>, AllocError> {
    if !is_even_below(n, joined) || !are_sides_below(n, sides) {
        return Ok(Vec::new(alloc));
    }
    let colours = orient(alloc, n, sides, joined)?;
    let colours = fewer(alloc, n, sides, joined, &colours, fixed)?;
    Ok(colours.into_vec())
}

/// Whether the pieces of four edges, or of three, have these letters with fewer stitches.
fn has_fewer(
    alloc: Global,
    are_four: bool,
    sides: &[(Id, Id)],
    fixed: Option<Id>,
    want: &[Mask],
) -> Result<bool, AllocError> {
    let joined = pairs(alloc, are_four)?;
    let n = if are_four { 8 } else { 6 };
    Ok(fewer_letters(alloc, &joined, n, sides, fixed)?.as_slice() == want)
}

/// Whether there are four edges, the sides, the piece that is fixed, and the letters with fewer stitches.
static FEWER: [(bool, &[(Id, Id)], Option<Id>, &[Mask]); 6] = [
    (false, &FLIPPED, None, &[A, B, B, A, A, B]),
    (true, &FLIPPED, Some(3), &[A, B, A, B, A, B, A, B]),
    // Pieces 2 and 3 gain only once 4 and 5 are flipped; a tie of 6 and 7 flips neither.
    (
        true,
        &[(0, 5), (0, 6), (3, 5), (4, 7)],
        None,
        &[A, B, B, A, B, A, A, B],
    ),
    // Of two components that gain the least is flipped; then the other one gains no more.
    (
        true,
        &[(5, 6), (3, 4), (0, 6), (1, 5)],
        None,
        &[A, B, B, A, A, B, A, B],
    ),
    // Pieces 0 and 1 gain by the flip of later ones; with anchors they stay.
    (true, &LOWER, None, &[B, A, B, A, A, B, A, B]),
    (true, &LOWER, Some(0), &[A, B, B, A, A, B, A, B]),
];

#[test]
fn single_components_flip_until_none_saves_stitches(rt: HostRuntime) -> Result<(), Fail> {
    for &(are_four, sides, fixed, want) in &FEWER {
        assert!(rt; has_fewer(rt.alloc(), are_four, sides, fixed, want)?);
    }
    Ok(())
}
