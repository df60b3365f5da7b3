//! The masks of a layer are right.
ghost use Rattle.dpl_law_outcome.specs.Laws.{PaintedMasksAreRight};

/// The masks of a layer cover it exactly, keep its features apart, and overlap at the listed stitches alone.
pub fn painted_masks_are_right()
    ensures { PaintedMasksAreRight }
{}
