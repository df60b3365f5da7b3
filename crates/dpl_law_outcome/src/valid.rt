//! `check` finds nothing broken in what `split` has made.
ghost use Rattle.dpl_law_outcome.specs.Own.{ClashIsValid, PaintedIsValid};
ghost use Rattle.dpl_law_outcome.specs.OwnFiles.{OwnFilesAreValid, OwnRunsAreValid, SplitsAreDecided};

/// A checker finds nothing broken in the masks of a layer, nor in the cycle reported of it.
pub fn own_results_are_valid()
    ensures painted { PaintedIsValid }
    ensures clash { ClashIsValid }
{}

/// With the files that `split` has written, `check` of the same values says that they are valid, if each file has at most
/// 268,435,456 bytes and each mask at most 3,355,443 rectangles: more aren't read again.
pub fn own_files_are_valid()
    ensures decided { SplitsAreDecided }
    ensures files { OwnFilesAreValid }
    ensures words { OwnRunsAreValid }
{}
