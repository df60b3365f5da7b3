//! Ways past structures that draw nothing themselves and place one copy of another one. A walk that takes them goes to no
//! such structure below an array of many copies.

ghost use Rattle.std.specs.Prelude.{◌≡◌, ℕ, ◌^◌, ◌<◌, ◌≤◌, length, slice_get, Some, IfOk, OnOk, IfSome, IfNone};
ghost use Rattle.std.specs.List.{All, Contains};
ghost use Rattle.dpl_spec_split.specs.declared.Pt.{Pt};
ghost use Rattle.dpl_spec_elements.specs.Motions.{image, IsComposed, IsMotionWithin};
ghost use Rattle.dpl_walk.specs.declared.cells.Copies.{Copies};
ghost use Rattle.dpl_walk.specs.declared.ways.Way.{Way};
ghost use Rattle.dpl_walk.specs.Cells.{copy_motion, IsReady};
ghost use Rattle.dpl_walk.specs.Walk.{copies_at, AreDeep, AreKnown, AreSteep};
ghost use Rattle.dpl_walk.specs.Ways.{IsPassage, IsWay, AreWays, HasWays, IsShort, AreShort, IsCellShort, AreCellsShort, HasPassage, IsWhole, AreWhole, AreAllWhole, AreBehind, IsOrderOf, ArePassed, ShowsSame};

use crate::cells::{Cell, Copies};
use crate::copies::copy_place;
use dpl_base::{Listed, Pt};
use dpl_place::{Place, compose};
use std::alloc::{AllocError, Global};

/// Where a structure may be left for another one, which, placed so, shows the same.
#[derive(Clone, Copy)]
pub(crate) struct Way {
    pub(crate) target: u32,
    pub(crate) place: Place,
}

/// The way of a structure to itself.
fn own_way(structure: u32) -> Way
    ensures target { result.target ≡ structure }
    ensures stays { (p : Pt) → image result.place p ≡ p }
    ensures still { IsMotionWithin 0 result.place }
{
    Way {
        target: structure,
        place: Place::unit(),
    }
}

/// The only copy that a structure places, where it draws nothing itself.
fn passage(cell: &Cell) -> Option<Copies>
    ensures some { IfSome result (λ c. IsPassage cell.now.outlines cell.now.copies c) }
    ensures none { IfNone result ((c : Copies) → ¬ IsPassage cell.now.outlines cell.now.copies c) }
{
    if !cell.outlines.items().is_empty() {
        return None;
    }
    match cell.copies.items() {
        [copies] if copies.columns == 1 && copies.rows == 1 => Some(*copies),
        _ => None,
    }
}

/// The way to the first of some copies, and on by the way of their target.
fn through(copies: &Copies, rest: &Way) -> Way
    requires ready { IsReady (2 ^ 31) copies.now }
    requires rest { IsMotionWithin (2 ^ 60) rest.now.place }
    ensures target { result.target ≡ rest.now.target }
    ensures place { IsComposed (copy_motion copies.now 0 0) rest.now.place result.place }
{
    Way {
        target: rest.target,
        place: compose(&copy_place(copies, 0, 0), &rest.place),
    }
}

/// The way of a structure, by the ways of others.
fn way_of(cells: &[Cell], structure: u32, ways: &[Way]) -> Way
    requires known { AreKnown (2 ^ 31) cells.now }
    requires few { length cells.now ≤ 2 ^ 26 }
    requires ways { HasWays cells.now ways.now }
    requires structure { structure < length cells.now }
    ensures way { (d : AreDeep cells.now) → AreWays cells.now d.level ways.now → IsWay cells.now d.level structure result }
    ensures whole { ((c : Copies) (w : Way) → Contains (copies_at cells.now structure) c → slice_get ways.now c.target ≡ Some w → IsWhole cells.now w) → IsWhole cells.now result }
{
    match passage(&cells[structure as usize]) {
        Some(copies) => through(&copies, &ways[copies.target as usize]),
        None => own_way(structure),
    }
}

/// The way of each structure to itself.
fn own_ways(alloc: Global, cells: &[Cell]) -> Result<Vec<Way>, AllocError>
    requires deep { AreDeep cells.now }
    requires few { length cells.now ≤ 2 ^ 26 }
    ensures ways { IfOk result (λ v. HasWays cells.now v.items) }
    ensures own { IfOk result (λ v. (k : ℕ) (w : Way) → slice_get v.items k ≡ Some w → w.target ≡ k) }
{
    let mut ways = Vec::new(alloc);
    for structure in 0..cells.len() {
        ways.push(own_way(structure as u32))?;
    }
    Ok(ways)
}

/// A way for each structure, as long as can be where the order has each structure with a passage, and each that it has
/// stands behind all that it places.
fn find_ways(alloc: Global, cells: &[Cell], order: &[u32]) -> Result<Vec<Way>, AllocError>
    requires known { AreKnown (2 ^ 31) cells.now }
    requires deep { AreDeep cells.now }
    requires few { length cells.now ≤ 2 ^ 26 }
    requires order { All (λ k. k < length cells.now) order.now }
    ensures ways { IfOk result (λ v. HasWays cells.now v.items) }
    ensures whole { IfOk result (λ v. IsOrderOf cells.now order.now → AreAllWhole cells.now v.items) }
{
    let mut ways = own_ways(alloc, cells)?;
    for structure in order {
        let way = way_of(cells, *structure, ways.as_slice());
        ways[*structure as usize] = way;
    }
    Ok(ways)
}

/// The copies of a reference, by the way of their target.
fn shortened(copies: &Copies, way: &Way) -> Copies
    requires ready { IsReady (2 ^ 31) copies.now }
    requires way { IsMotionWithin (2 ^ 60) way.now.place }
    ensures { IsShort copies.now way.now result }
{
    let first = through(copies, way);
    Copies {
        target: first.target,
        reflect: first.place.reflect(),
        turns: first.place.turns(),
        origin: Pt {
            x: first.place.dx(),
            y: first.place.dy(),
        },
        ..*copies
    }
}

/// The copies of some references, by the ways of their targets.
fn all_shortened(
    alloc: Global,
    copies: &[Copies],
    ways: &[Way],
) -> Result<Listed<Copies>, AllocError>
    requires ready { All (IsReady (2 ^ 31)) copies.now }
    requires known { All (λ c. c.target < length ways.now) copies.now }
    requires within { All (λ w. IsMotionWithin (2 ^ 60) w.place) ways.now }
    ensures { IfOk result (λ l. AreShort ways.now copies.now l) }
{
    let mut found = Vec::new(alloc);
    for array in copies {
        found.push(shortened(array, &ways[array.target as usize]))?;
    }
    Ok(Listed::of(found))
}

/// Shortens the copies that one structure places.
fn shorten_at(
    alloc: Global,
    cells: &mut Vec<Cell>,
    structure: usize,
    ways: &[Way],
) -> Result<(), AllocError>
    requires structure { structure < length cells.old.items }
    requires ready { All (IsReady (2 ^ 31)) (copies_at cells.old.items structure) }
    requires known { All (λ c. c.target < length ways.now) (copies_at cells.old.items structure) }
    requires within { All (λ w. IsMotionWithin (2 ^ 60) w.place) ways.now }
    ensures { OnOk result (IsCellShort ways.now structure cells.old.items cells.new.items) }
{
    let short = all_shortened(alloc, cells[structure].copies.items(), ways)?;
    cells[structure].copies = short;
    Ok(())
}

/// Shortens the copies that the structures place.
fn shorten(alloc: Global, cells: &mut Vec<Cell>, ways: &[Way]) -> Result<(), AllocError>
    requires known { AreKnown (2 ^ 31) cells.old.items }
    requires few { length cells.old.items ≤ 2 ^ 26 }
    requires ways { HasWays cells.old.items ways.now }
    ensures short { OnOk result (AreCellsShort ways.now cells.old.items cells.new.items) }
    ensures passed { OnOk result (AreAllWhole cells.old.items ways.now → ArePassed cells.new.items) }
{
    for structure in 0..cells.len() {
        shorten_at(alloc, cells, structure, ways)?;
    }
    Ok(())
}

/// Has copies lead past the structures that draw nothing and place one copy, where the order has each of these, and each
/// that it has stands behind all that it places. What the structures show stays the same with any order.
pub(crate) fn pass_by(alloc: Global, cells: &mut Vec<Cell>, order: &[u32]) -> Result<(), AllocError>
    requires known { AreKnown (2 ^ 31) cells.old.items }
    requires deep { AreDeep cells.old.items }
    requires few { length cells.old.items ≤ 2 ^ 26 }
    requires order { All (λ k. k < length cells.old.items) order.now }
    ensures each { OnOk result (length cells.new.items ≡ length cells.old.items) }
    ensures known { OnOk result (AreKnown (2 ^ 60) cells.new.items) }
    ensures steep { OnOk result (AreSteep cells.new.items) }
    ensures same { OnOk result (ShowsSame cells.old.items cells.new.items) }
    ensures passed { OnOk result (IsOrderOf cells.old.items order.now → ArePassed cells.new.items) }
{
    let ways = find_ways(alloc, cells.as_slice(), order)?;
    shorten(alloc, cells, ways.as_slice())?;
    Ok(())
}
