//! Edits of a layer: what they make of its squares, and the text that lists them.
#![tactic(auto)]

ghost use Rattle.std.specs.Prelude.{◌≡◌, ◌++◌, ℕ, List};
ghost use Rattle.dpl_spec_split.specs.Squares.{SameSquares};
ghost use Rattle.dpl_spec_edits.specs.Laws.{EditsKeepSameSquares, EditsOneAfterAnother, OneFirstBadLine, OneListOfEdits, TextsAreNotBoth};

use dpl_spec_split::Rect;

/// An edit of a layer by one rectangle, in database units.
#[derive(Clone, Copy, Debug, Drop, PartialEq, Eq)]
pub enum Edit {
    /// The layer has the rectangle's squares, too.
    Add(Rect),
    /// The layer has none of the rectangle's squares.
    Remove(Rect),
}

/// The same squares edited have the same squares, and edits one after another are those of both lists in a row.
pub fn edits_of_squares()
    ensures same { EditsKeepSameSquares }
    ensures in_a_row { EditsOneAfterAnother }
{}

/// No text lists two lists of edits, has two first bad lines, or both lists edits and has a first bad line.
pub fn one_list_of_edits()
    ensures edits { OneListOfEdits }
    ensures line { OneFirstBadLine }
    ensures apart { TextsAreNotBoth }
{}
