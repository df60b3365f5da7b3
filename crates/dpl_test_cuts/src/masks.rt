//! The masks of coloured pieces.
use crate::bars::{BARS, Corners, RING, are, cut};
use dpl_masks::masks;
use dpl_orient::{Colours, Mask};
use dpl_piece::Pieces;
use std::alloc::{AllocError, Global};

/// The same bars twice, one above the other.
const BARS_TWICE: [Corners; 6] = [
    (0, 0, 158, 20),
    (0, 40, 50, 60),
    (108, 40, 158, 60),
    (0, 1000, 158, 1020),
    (0, 1040, 50, 1060),
    (108, 1040, 158, 1060),
];

/// Whether pieces of these colours have these masks.
fn have_masks(
    alloc: Global,
    pieces: Pieces,
    colours: &Colours,
    on_a: &[Corners],
    on_b: &[Corners],
) -> Result<bool, AllocError> {
    if colours.items().len() != pieces.parts().items().len() {
        return Ok(false);
    }
    let masks = masks(alloc, pieces, colours)?;
    Ok(are(masks.a.rects(), on_a) && are(masks.b.rects(), on_b))
}

/// Whether a layer whose pieces have these letters has these masks.
fn is_painted(
    alloc: Global,
    layer: &[Corners],
    letters: &[Mask],
    on_a: &[Corners],
    on_b: &[Corners],
) -> Result<bool, AllocError> {
    let colours = Colours::of(Vec::from_slice(alloc, letters)?);
    let pieces = cut(alloc, layer)?;
    have_masks(alloc, pieces, &colours, on_a, on_b)
}

/// The first mask.
const A: Mask = Mask::A;

/// The second mask.
const B: Mask = Mask::B;

/// A layer, the letters of its pieces, and both masks.
static PAINTED: [(&[Corners], &[Mask], &[Corners], &[Corners]); 6] = [
    (&[], &[], &[], &[]),
    // no zone cuts the feature
    (&[(3, 4, 5, 6)], &[B], &[], &[(3, 4, 5, 6)]),
    // a zone cuts the long bar: both pieces on one mask, and one on each
    (
        &BARS,
        &[A, A, B, B],
        &[(0, 0, 158, 20)],
        &[(0, 40, 50, 60), (108, 40, 158, 60)],
    ),
    (
        &BARS,
        &[A, B, B, A],
        &[(0, 0, 84, 20), (108, 40, 158, 60)],
        &[(74, 0, 158, 20), (0, 40, 50, 60)],
    ),
    // all three kinds of features
    (
        &BARS_TWICE,
        &[A, B, B, A, B, B, A, A],
        &[
            (0, 0, 84, 20),
            (108, 40, 158, 60),
            (0, 1040, 50, 1060),
            (108, 1040, 158, 1060),
        ],
        &[(74, 0, 158, 20), (0, 40, 50, 60), (0, 1000, 158, 1020)],
    ),
    // four stitches
    (
        &RING,
        &[A, B, B, A],
        &[
            (0, 0, 55, 40),
            (0, 40, 40, 55),
            (60, 45, 100, 60),
            (45, 60, 100, 100),
        ],
        &[
            (45, 0, 100, 40),
            (60, 40, 100, 55),
            (0, 45, 40, 60),
            (0, 60, 55, 100),
        ],
    ),
];

#[test]
fn features_are_painted(rt: HostRuntime) {
    for &(layer, letters, on_a, on_b) in &PAINTED {
        assert!(rt; is_painted(rt.alloc(), layer, letters, on_a, on_b) == Ok(true));
    }
}
