//! Marks: which are asked for, and of which squares.
ghost use Rattle.std.specs.Prelude.{◌≡◌, IfOk};
ghost use Rattle.std.specs.Option.{option_copied};
ghost use Rattle.dpl_layer.specs.View.{marked_choice_view};
ghost use Rattle.dpl_piece.specs.View.{IsMarkedSet};
ghost use Rattle.dpl_answer.specs.Anchors.{marks_in};
ghost use Rattle.dpl_decide.specs.Deciding.{are_asked, marks_for};

use dpl_answer::MarkSets;
use dpl_layer::MarkedChoice;
use dpl_slabs::Slabs;
use std::alloc::{AllocError, Global};

/// Whether marks are asked for: whether a layer of markers is named.
pub fn has_markers(choice: &MarkedChoice<'_>) -> bool
    ensures { result ≡ are_asked (marked_choice_view choice.now) }
{
    choice.mark_a.is_some() || choice.mark_b.is_some()
}

/// The marks of a layout, where they are asked for.
pub(crate) fn marks_by<'a>(choice: &MarkedChoice<'_>, sets: &'a MarkSets) -> Option<&'a MarkSets>
    ensures { marks_in (option_copied result) ≡ marks_for (marked_choice_view choice.now) sets.now.a sets.now.b }
{
    if !has_markers(choice) {
        return None;
    }
    Some(sets)
}

/// The squares that the marks fix to some mask: none where no marks are given.
pub(crate) fn marked_squares(alloc: Global, marks: Option<&MarkSets>) -> Result<Slabs, AllocError>
    ensures { IfOk result (λ set. IsMarkedSet set (marks_in (option_copied marks.entry))) }
{
    match marks {
        None => Ok(Slabs::empty(alloc)),
        Some(sets) => sets.a.union(alloc, &sets.b),
    }
}
