//! A command does at most one thing with its files: neither the size of the tiles nor the number of the workers shows in it.
ghost use Rattle.dpl_law_outcome.specs.Fewer.{FewerTellNoMore, NoFlipIsLeft};
ghost use Rattle.dpl_law_outcome.specs.Laws.{OneOutcome, OneRun};

/// For two command lines that differ in the values of `--tile` and `--workers` alone, the status, the files written and
/// the line said are equal.
pub fn one_outcome()
    ensures files { OneOutcome }
    ensures words { OneRun }
{}

/// With `--fewer` a file has masks exactly where it has them without, and they have no more stitches; a conflict is told as without. No flip of a single component, but that of marked pieces, leaves fewer.
pub fn fewer_tell_no_more()
    ensures more { FewerTellNoMore }
    ensures left { NoFlipIsLeft }
{}
