//! What follows where a checker finds nothing broken, whatever tool made the masks or the certificate.
#![tactic(auto)]

ghost use Rattle.dpl_law_verdict.specs.Flips.{NoFlipsLeaveFewer};
ghost use Rattle.dpl_law_verdict.specs.Lines.{ValidLinesAreGood};
ghost use Rattle.dpl_law_verdict.specs.Own.{OwnCyclesAreValid, OwnMasksAreValid, OwnMasksByAreValid};
ghost use Rattle.dpl_law_verdict.specs.Valid.{ValidConflictsAreThere, ValidMasksAreRight, ValidMasksKeepMarks};
ghost use Rattle.dpl_law_verdict.specs.Written.{FaultlessLayersAreWithin, OwnCyclesAreWritten, OwnMasksAreWritten, OwnMasksByAreWritten};

/// Valid masks cover the layer and nothing else, have no near squares of different features on one mask, and are both on a square exactly where it lies in a listed stitch.
pub fn valid_masks_are_right()
    ensures { ValidMasksAreRight }
{}

/// Each stitch listed for valid masks is on both of them, as long as the overlap, and between listed pieces of two letters; each listed piece is on the mask of its letter, and the certificate names the rule, the corner rule, the overlap and the number of features.
pub fn valid_lines_are_good()
    ensures { ValidLinesAreGood }
{}

/// Where marks are asked for, valid masks keep them: each square of the layer that is marked A is on mask A and not on mask B, and the other way round.
pub fn valid_masks_keep_marks()
    ensures { ValidMasksKeepMarks }
{}

/// Where a valid certificate of masks has lines of gains, no flip of a single component of conflicts without a marked piece leaves fewer stitches than the letters of its piece lines make.
pub fn no_flips_leave_fewer()
    ensures { NoFlipsLeaveFewer }
{}

/// The places of a valid certificate of a conflict are an odd cycle of the layer's conflict graph, with its anchors where marks are asked for. Each piece is named by its least square, and each line shows that two places are joined; the head names the rule, the corner rule, the overlap, and how many features, pieces and zones there are.
pub fn valid_conflicts_are_there()
    ensures { ValidConflictsAreThere }
{}

/// The masks of a layer whose conflict graph has no odd cycle are valid by the lines that tell of them, and so are those with fewer stitches, with the gains that are left.
pub fn own_masks_are_valid()
    ensures masks { OwnMasksAreValid }
    ensures by { OwnMasksByAreValid }
{}

/// The odd cycle reported of a layer is valid by its pieces and their nearest squares.
pub fn own_cycles_are_valid()
    ensures { OwnCyclesAreValid }
{}

/// A layer of a file without a fault lies within the range of coordinates; so do its masks, and what is told of them, or of
/// the odd cycle reported of it, is a certificate, whose every number fits.
pub fn own_results_are_written()
    ensures layer { FaultlessLayersAreWithin }
    ensures masks { OwnMasksAreWritten }
    ensures by { OwnMasksByAreWritten }
    ensures cycle { OwnCyclesAreWritten }
{}
