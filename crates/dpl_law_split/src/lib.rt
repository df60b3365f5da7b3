//! What follows for the masks of a layer, with fewer stitches or without: they cover it, keep its features apart and its marks, and overlap at stitches alone.
#![tactic(auto)]

ghost use Rattle.dpl_law_split.specs.Faults.{FaultlessOrFault, OneFirstFault, OneTop, OneTopFault, SomeTop, TopOrFault};
ghost use Rattle.dpl_law_split.specs.Masks.{FewerAreNoMore, MasksCover, MasksKeepApart, MasksKeepMarks, MasksOverlapAtStitches};

/// A square is on one of the masks exactly where it is in the layer.
pub fn masks_cover()
    ensures { MasksCover }
{}

/// Where the graph, with anchors where marks are asked for, has no odd cycle, squares of different features on one mask are not near.
pub fn masks_keep_apart()
    ensures { MasksKeepApart }
{}

/// A square is on both masks exactly where it lies in a stitch.
pub fn masks_overlap_at_stitches()
    ensures { MasksOverlapAtStitches }
{}

/// Where the graph with anchors has no odd cycle, a square of the layer that is fixed to a mask is on that mask, and not on the other one.
pub fn masks_keep_marks()
    ensures { MasksKeepMarks }
{}

/// Where fewer stitches are asked for, the masks of a cut have no more of them than where they aren't.
pub fn fewer_are_no_more()
    ensures { FewerAreNoMore }
{}

/// A library has exactly one top, or exactly one reason why it has none, and not both.
pub fn one_top()
    ensures some { SomeTop }
    ensures top { OneTop }
    ensures fault { OneTopFault }
    ensures apart { TopOrFault }
{}

/// The library of a file has at most one first fault below its top, and none where its layer has no fault.
pub fn one_first_fault()
    ensures fault { OneFirstFault }
    ensures apart { FaultlessOrFault }
{}
