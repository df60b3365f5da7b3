//! Definitions of colours with fewer stitches: single components are flipped, again and again.
#![tactic(auto)]

ghost use Rattle.dpl_spec_fewer.specs.Laws.{FlipsByCounts, OneEnd, OneFewer, NoneGains, NoMoreStitches, ComponentsAreKept, OneOfMasks, PlainMasksAreMasks};

/// The flip of a component leaves fewer stitches exactly where more of its zones to other components have sides that
/// differ than sides that agree: by so many fewer.
pub fn flips_by_counts()
    ensures { FlipsByCounts }
{}

/// There is at most one colouring with fewer stitches.
pub fn one_fewer()
    ensures end { OneEnd }
    ensures colours { OneFewer }
{}

/// In a colouring with fewer stitches no single component's flip leaves fewer still, but perhaps the fixed one's; it
/// has no more stitches than before, and each component is as it was or flipped.
pub fn fewer_stitches()
    ensures none { NoneGains }
    ensures no_more { NoMoreStitches }
    ensures kept { ComponentsAreKept }
{}

/// Where fewer stitches aren't asked for, the masks are those of the decomposition; and either way a cut has at most one
/// pair of masks, with one list of letters.
pub fn masks_by_colours()
    ensures plain { PlainMasksAreMasks }
    ensures one { OneOfMasks }
{}
