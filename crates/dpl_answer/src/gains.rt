//! The gains that are left where fewer stitches are asked for.
ghost use Rattle.std.specs.Prelude.{◌≡◌, ◌≤◌, List, IfOk, length};
ghost use Rattle.std.specs.Option.{option_copied};
ghost use Rattle.dpl_spec_split.specs.declared.Rect.{Rect};
ghost use Rattle.dpl_spec_split.specs.Marks.{graph, vertex};
ghost use Rattle.dpl_orient.specs.Oriented.{IsEvenBelow};
ghost use Rattle.dpl_piece.specs.View.{cut_view};
ghost use Rattle.dpl_spec_verdict.specs.Gains.{AreGainsOf};
ghost use Rattle.dpl_law_verdict.specs.Own.{AreGainsBy};
ghost use Rattle.dpl_answer.specs.Anchors.{marks_in};
ghost use Rattle.dpl_answer.specs.Conflicts.{SumsGraph};

use crate::marks::MarkSets;
use dpl_base::{Id, Listed, Spacing};
use dpl_cert::Gain;
use dpl_gains::{gains_by_roots, gains_of};
use dpl_orient::{Colours, roots_below};
use dpl_piece::Pieces;
use dpl_slabs::Slabs;
use dpl_stars::Joined;
use std::alloc::{AllocError, Global};

/// The gains of the components of pieces that have these colours, where fewer stitches are asked for; `joined` sums up the graph of the pieces.
///
/// The error: out of memory.
pub(crate) fn gains_by(
    alloc: Global,
    pieces: &Pieces,
    colours: &Colours,
    joined: &Joined,
    marks: Option<&MarkSets>,
    spacing: Spacing,
    fewer: bool,
) -> Result<Option<Listed<Gain>>, AllocError>
    requires corner { spacing.corner ≤ spacing.rule }
    requires each { length colours.now ≡ length pieces.now.parts }
    requires sums { SumsGraph (graph (marks_in (option_copied marks)) spacing pieces.now.parts pieces.now.owners) joined.now }
    requires even { IsEvenBelow (vertex (marks_in (option_copied marks)) (length pieces.now.parts)) joined.now }
    ensures { IfOk result (λ gains. (features : List (List Rect)) → AreGainsBy fewer (marks_in (option_copied marks.entry)) spacing (cut_view features pieces.now) colours.now gains) }
{
    if !fewer {
        return Ok(None);
    }
    let letters = colours.letters(alloc)?;
    let gains = gains_among(alloc, pieces, &letters, joined, marks, spacing)?;
    Ok(Some(Listed::of(gains)))
}

/// The gains of the components of pieces that have these letters. Without marks `joined` tells the components. With marks it tells those of the graph with anchors, in which all marked ones are one, and the conflicts are found once more.
fn gains_among(
    alloc: Global,
    pieces: &Pieces,
    letters: &[bool],
    joined: &Joined,
    marks: Option<&MarkSets>,
    spacing: Spacing,
) -> Result<Vec<Gain>, AllocError>
    requires corner { spacing.corner ≤ spacing.rule }
    requires each { length letters.now ≡ length pieces.now.parts }
    requires sums { SumsGraph (graph (marks_in (option_copied marks)) spacing pieces.now.parts pieces.now.owners) joined.now }
    requires even { IsEvenBelow (vertex (marks_in (option_copied marks)) (length pieces.now.parts)) joined.now }
    ensures { (features : List (List Rect)) → IfOk result (λ v. AreGainsOf (marks_in (option_copied marks.entry)) spacing (cut_view features pieces.now) letters.now v.items) }
{
    match marks {
        None => {
            let count = pieces.parts().items().len() as Id;
            let roots = roots_below(alloc, count, joined)?;
            let no_marks = Slabs::empty(alloc);
            gains_by_roots(alloc, pieces, &roots, letters, &no_marks)
        }
        Some(sets) => {
            let marked = sets.a.union(alloc, &sets.b)?;
            gains_of(alloc, pieces, letters, &marked, spacing)
        }
    }
}
