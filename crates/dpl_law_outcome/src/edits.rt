//! An edited layer is split as one that is drawn so.
ghost use Rattle.dpl_law_outcome.specs.Drawn.{EditsAreAsDrawn, NoEditsAreNone};

/// Let IN have a layer without a fault, and EDITS list edits. Then `edit` has the outcome that `split`, by the same values, has of any file that has the same
/// records to copy and whose layer has just the unit squares that the edits make: the status, the bytes of the files written and the line said are equal.
/// Where EDITS is empty, `edit` has the outcome of `split` of IN, also where IN has a fault or isn't there.
pub fn edits_are_as_drawn()
    ensures drawn { EditsAreAsDrawn }
    ensures no_edits { NoEditsAreNone }
{}
