//! Flips components so that fewer stitch zones become stitches.
ghost use Rattle.std.specs.Prelude.{◌≡◌, ◌↔◌, length, IsTrue, IfOk};
ghost use Rattle.dpl_stars.specs.Stars.{IsStarList};
ghost use Rattle.dpl_orient.specs.Chart.{AreLow};
ghost use Rattle.dpl_orient.specs.Crossings.{colours_of};
ghost use Rattle.dpl_orient.specs.Oriented.{AreColoursOfRows, IsEvenBelow, AreColoursOf, ColoursWhatSums};
ghost use Rattle.dpl_orient.specs.Rooted.{ArePiecesBelow, AreSidesBelow};

use crate::chart::{Rooted, chart};
use crate::crossing::{crossings, differs};
use crate::flipping::flips;
use crate::mask::{Colours, Mask};
use dpl_list::Id;
use dpl_stars::{Joined, Star};
use std::alloc::{AllocError, Global};

/// The masks of the pieces, where `flips` says which components are flipped.
fn masks(alloc: Global, chart: &[Rooted], flips: &[bool]) -> Result<Colours, AllocError>
    requires low { AreLow chart.now }
    requires len { length flips.now ≡ length chart.now }
    ensures { IfOk result (λ colours. colours ≡ colours_of chart.now flips.now) }
{
    let mut masks = Vec::with_capacity(alloc, chart.len())?;
    for rooted in chart {
        masks.push(Mask::of(differs(rooted.odd, flips[rooted.root as usize])))?;
    }
    Ok(Colours::of(masks))
}

/// The masks of the pieces below `n` by the rows of a summary.
fn orient_rows(
    alloc: Global,
    n: Id,
    sides: &[(Id, Id)],
    rows: &[Star],
) -> Result<Colours, AllocError>
    requires ordered { IsStarList rows.now }
    requires below { ArePiecesBelow n rows.now }
    requires sides { AreSidesBelow n sides.now }
    ensures { IfOk result (λ colours. AreColoursOfRows rows.now n sides.now colours) }
{
    let chart = chart(alloc, n, rows)?;
    let across = crossings(alloc, &chart, sides)?;
    let flips = flips(alloc, n, &chart, sides, &across)?;
    masks(alloc, &chart, &flips)
}

/// Whether a summary has no odd cycle, and pieces below `n` alone.
pub fn is_even_below(n: Id, joined: &Joined) -> bool
    ensures { IsTrue result ↔ IsEvenBelow n joined.now }
{
    match joined {
        Joined::Stars(rows) => rows.items().iter().all(|row| row.piece < n),
        Joined::Odd => false,
    }
}

/// Whether each zone's sides are below `n`.
pub fn are_sides_below(n: Id, sides: &[(Id, Id)]) -> bool
    ensures { IsTrue result ↔ AreSidesBelow n sides.now }
{
    sides.iter().all(|side| side.0 < n && side.1 < n)
}

/// The masks of the pieces below `n`, where `joined` sums up the conflicts and `sides` has the pieces on both sides of
/// each stitch zone. A component alternates from mask A at its least piece. Components are taken by least piece, and
/// one is flipped where fewer of its zones with earlier components then have sides on different masks. 2^32 pieces or
/// more, and a zone between two components whose number is 2^32 or more, are refused as out of memory, which so many
/// would be.
pub fn orient(
    alloc: Global,
    n: Id,
    sides: &[(Id, Id)],
    joined: &Joined,
) -> Result<Colours, AllocError>
    requires even { IsEvenBelow n joined.now }
    requires sides { AreSidesBelow n sides.now }
    ensures colours { IfOk result (λ colours. AreColoursOf joined.now n sides.now colours) }
    ensures graph { IfOk result (λ colours. ColoursWhatSums joined.now n sides.now colours) }
{
    match joined {
        Joined::Stars(rows) => orient_rows(alloc, n, sides, rows.items()),
        Joined::Odd => unreachable!(),
    }
}
