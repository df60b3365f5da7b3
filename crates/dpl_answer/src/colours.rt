//! The colours of pieces, from those of vertices.
ghost use Rattle.std.specs.Prelude.{◌≡◌, ◌+◌, IfOk};
ghost use Rattle.std.specs.Option.{option_copied};
ghost use Rattle.dpl_spec_split.specs.Marks.{vertex};
ghost use Rattle.dpl_orient.specs.Oriented.{IsEvenBelow};
ghost use Rattle.dpl_orient.specs.Rooted.{AreSidesBelow};
ghost use Rattle.dpl_answer.specs.Anchors.{AreAnchoredLetters, AreLettersOf, marks_in};

use crate::marks::MarkSets;
use dpl_base::Id;
use dpl_edges::shifted;
use dpl_orient::{Colours, colours_by};
use dpl_stars::Joined;
use std::alloc::{AllocError, Global};

/// How many vertices so many pieces make: where marks are asked for, two more.
///
/// The error: the number has more than 64 bits.
pub(crate) fn vertex_count(count: Id, marks: Option<&MarkSets>) -> Result<Id, AllocError>
    ensures { IfOk result (λ n. n ≡ vertex (marks_in (option_copied marks.entry)) count) }
{
    match marks {
        None => Ok(count),
        Some(_) => count.checked_add(2).ok_or(AllocError),
    }
}

/// The masks of so many pieces, where `joined` sums up the graph, with anchors where marks are asked for, and `sides` has the pieces on both sides of each stitch zone. With `reduce` those with fewer stitches; the anchors' component isn't flipped for that.
///
/// The error: out of memory.
pub(crate) fn piece_colours(
    alloc: Global,
    count: Id,
    sides: &[(Id, Id)],
    joined: &Joined,
    marks: Option<&MarkSets>,
    reduce: bool,
) -> Result<Colours, AllocError>
    requires even { IsEvenBelow (vertex (marks_in (option_copied marks)) count) joined.now }
    requires sides { AreSidesBelow count sides.now }
    ensures { IfOk result (AreLettersOf reduce (marks_in (option_copied marks.entry)) joined.now count sides.now) }
{
    match marks {
        None => colours_by(alloc, count, sides, joined, None, reduce),
        Some(_) => anchored_colours(alloc, count, sides, joined, reduce),
    }
}

/// The same, where marks are asked for: the masks of so many pieces, from those of all vertices.
fn anchored_colours(
    alloc: Global,
    count: Id,
    sides: &[(Id, Id)],
    joined: &Joined,
    reduce: bool,
) -> Result<Colours, AllocError>
    requires even { IsEvenBelow (count + 2) joined.now }
    requires sides { AreSidesBelow count sides.now }
    ensures { IfOk result (λ letters. AreAnchoredLetters reduce joined.now count sides.now letters) }
{
    let Some(vertices) = count.checked_add(2) else {
        return Err(AllocError);
    };
    let moved = shifted(alloc, sides)?;
    let colours = colours_by(alloc, vertices, &moved, joined, Some(0), reduce)?;
    drop(moved);
    let masks = colours.items();
    let mut letters = Vec::with_capacity(alloc, masks.len())?;
    letters.extend_from_slice(&masks[2..])?;
    Ok(Colours::of(letters))
}
