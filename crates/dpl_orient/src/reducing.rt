//! Flips single components again and again, so that fewer stitch zones are stitches.
ghost use Rattle.std.specs.Prelude.{◌≡◌, ◌<◌, ◌≤◌, ◌^◌, ℕ, length, map, not, slice_set, slice_index_or, false, IfOk, OnOk, ◌≢◌};
ghost use Rattle.std.specs.BinaryHeap.{heap_items};
ghost use Rattle.std.specs.List.Sorted.{IsNonDecreasingBy};
ghost use Rattle.dpl_spec_fewer.specs.Fewer.{LeadsTo, stitch_count};
ghost use Rattle.dpl_stars.specs.Stars.{IsStarList};
ghost use Rattle.dpl_orient.specs.Masks.{is_second};
ghost use Rattle.dpl_orient.specs.Rooted.{ArePiecesBelow, AreSidesBelow};
ghost use Rattle.dpl_orient.specs.Chart.{AreLow, roots_in};
ghost use Rattle.dpl_orient.specs.Links.{AreLinksBelow, letters_of};
ghost use Rattle.dpl_orient.specs.Tallies.{AreMutual, AreTallies, GainsAt, IsQueue, Waits, AllWait};
ghost use Rattle.dpl_orient.specs.Oriented.{IsEvenBelow, AreColoursOf};
ghost use Rattle.dpl_orient.specs.Fewer.{AreLedByRows, AreLed, ColoursBy, FewerOfWhatSums};

use crate::chart::{Rooted, chart};
use crate::colouring::orient;
use crate::crossing::differs;
use crate::links::{Link, group, held_root, is_flipped, links, links_from};
use crate::mask::{Colours, Mask, is_second};
use crate::queue::{move_zones, next_gain, queue_of};
use crate::tallies::{Tally, exchange, tallies_of};
use dpl_list::Id;
use dpl_stars::{Joined, Star};
use std::alloc::{AllocError, Global};
use std::cmp::Reverse;
use std::collections::BinaryHeap;

/// Turns the entry of a component over.
fn turn(flips: &mut [bool], root: u32)
    requires { root < length flips.old }
    ensures { flips.new ≡ slice_set flips.old root (not (slice_index_or flips.old root false)) }
{
    flips[root as usize] = !flips[root as usize];
}

/// Flips a component that gains. Its own tally, and those of the components that its zones lead to, are kept up to date.
fn flip(
    links: &[Link],
    held: Option<u32>,
    root: u32,
    flips: &mut [bool],
    tallies: &mut [Tally],
    waiting: &mut BinaryHeap<Reverse<u32>>,
) -> Result<(), AllocError>
    requires paired { AreMutual links.now }
    requires ordered { IsNonDecreasingBy (λ l. l.from) links.now }
    requires below { AreLinksBelow (length flips.old) links.now }
    requires few { length links.now < 2 ^ 64 }
    requires within { root < length flips.old }
    requires tallies { AreTallies links.now flips.old tallies.old }
    requires gains { GainsAt held tallies.old root }
    requires queue { IsQueue (heap_items waiting.old) }
    requires rest { (other : ℕ) → GainsAt held tallies.old other → other ≢ root → Waits (heap_items waiting.old) other }
    ensures flipped { flips.new ≡ slice_set flips.old root (not (slice_index_or flips.old root false)) }
    ensures tallies { OnOk result (AreTallies links.now flips.new tallies.new) }
    ensures queue { OnOk result (IsQueue (heap_items waiting.new)) }
    ensures all { OnOk result (AllWait held tallies.new (heap_items waiting.new)) }
{
    turn(flips, root);
    exchange(tallies, root);
    move_zones(links_from(links, root), flips, held, tallies, waiting)
}

/// Which components are flipped, so that the letters lead to those that no single flip leaves with fewer stitches.
fn final_flips(
    alloc: Global,
    chart: &[Rooted],
    sides: &[(Id, Id)],
    masks: &[Mask],
    fixed: Option<Id>,
) -> Result<Vec<bool>, AllocError>
    requires few { length chart.now < 2 ^ 32 }
    requires low { AreLow chart.now }
    requires sides { AreSidesBelow (length chart.now) sides.now }
    requires each { length masks.now ≡ length chart.now }
    ensures len { IfOk result (λ flips. length flips.items ≡ length chart.now) }
    ensures led { IfOk result (λ flips. LeadsTo (roots_in chart.now) fixed sides.now (map is_second masks.now) (letters_of chart.now (map is_second masks.now) flips.items)) }
{
    let mut links = links(alloc, chart, sides, masks)?;
    group(&mut links);
    let held = held_root(chart, fixed);
    let mut flips = vec![in alloc; false; chart.len()]?;
    let mut tallies = tallies_of(alloc, &links, &flips)?;
    let mut waiting = queue_of(alloc, &tallies, held)?;
    while let Some(root) = next_gain(&tallies, held, &mut waiting) {
        flip(&links, held, root, &mut flips, &mut tallies, &mut waiting)?;
    }
    Ok(flips)
}

/// The masks of the pieces, where `flips` says which components are flipped.
fn turned(
    alloc: Global,
    chart: &[Rooted],
    masks: &[Mask],
    flips: &[bool],
) -> Result<Colours, AllocError>
    requires each { length masks.now ≡ length chart.now }
    ensures { IfOk result (λ colours. colours ≡ letters_of chart.now (map is_second masks.now) flips.now) }
{
    let mut turned = Vec::with_capacity(alloc, masks.len())?;
    for piece in 0..masks.len() {
        let flip = is_flipped(flips, chart[piece].root);
        turned.push(Mask::of(differs(flip, is_second(masks[piece]))))?;
    }
    Ok(Colours::of(turned))
}

/// The masks that these lead to, by the rows of a summary.
fn fewer_rows(
    alloc: Global,
    n: Id,
    sides: &[(Id, Id)],
    rows: &[Star],
    colours: &Colours,
    fixed: Option<Id>,
) -> Result<Colours, AllocError>
    requires ordered { IsStarList rows.now }
    requires below { ArePiecesBelow n rows.now }
    requires sides { AreSidesBelow n sides.now }
    requires each { length colours.now ≡ n }
    ensures { IfOk result (λ last. AreLedByRows rows.now n sides.now fixed colours.now last) }
{
    let chart = chart(alloc, n, rows)?;
    let flips = final_flips(alloc, &chart, sides, colours.items(), fixed)?;
    turned(alloc, &chart, colours.items(), &flips)
}

/// The masks with fewer stitches, from those that `orient` gives for the same pieces, sides and summary. The least
/// component whose flip alone leaves fewer stitches is flipped, again and again, until there is none. The component of
/// the piece `fixed` stays as it is. 2^32 pieces or more are refused as out of memory, which so many would be.
pub fn fewer(
    alloc: Global,
    n: Id,
    sides: &[(Id, Id)],
    joined: &Joined,
    colours: &Colours,
    fixed: Option<Id>,
) -> Result<Colours, AllocError>
    requires even { IsEvenBelow n joined.now }
    requires sides { AreSidesBelow n sides.now }
    requires colours { AreColoursOf joined.now n sides.now colours.now }
    ensures led { IfOk result (λ last. AreLed joined.now n sides.now fixed colours.now last) }
    ensures graph { IfOk result (λ last. FewerOfWhatSums joined.now n sides.now fixed last) }
    ensures no_more { IfOk result (λ last. stitch_count sides.now last ≤ stitch_count sides.now colours.now) }
{
    match joined {
        Joined::Stars(rows) => fewer_rows(alloc, n, sides, rows.items(), colours, fixed),
        Joined::Odd => unreachable!(),
    }
}

/// The masks that `orient` gives, or with `reduce` those that `fewer` makes of them, where the component of `fixed` stays as it is.
///
/// The error: out of memory, as for 2^32 pieces or more.
pub fn colours_by(
    alloc: Global,
    n: Id,
    sides: &[(Id, Id)],
    joined: &Joined,
    fixed: Option<Id>,
    reduce: bool,
) -> Result<Colours, AllocError>
    requires even { IsEvenBelow n joined.now }
    requires sides { AreSidesBelow n sides.now }
    ensures colours { IfOk result (λ colours. ColoursBy reduce fixed joined.now n sides.now colours) }
    ensures each { IfOk result (λ colours. length colours ≡ n) }
{
    let first = orient(alloc, n, sides, joined)?;
    if reduce {
        return fewer(alloc, n, sides, joined, &first, fixed);
    }
    Ok(first)
}
