//! The walk over placements, which keeps a stack of its own.

ghost use Rattle.std.specs.Prelude.{◌≡◌, ℕ, Option, ◌^◌, ◌*◌, ◌+◌, ◌<◌, ◌≤◌, ◌↔◌, ◌++◌, ◌∷◌, [], true, false, length, map, IsTrue, IfOk, OnOk, unsigned_abs, pos, ◌+ℤ◌, ◌*ℤ◌};
ghost use Rattle.std.specs.List.{All};
ghost use Rattle.std.specs.Option.{option_to_list};
ghost use Rattle.dpl_walk.specs.declared.walk.StackFrame.{StackFrame};
ghost use Rattle.dpl_spec_split.specs.Loops.{ArePointsWithin};
ghost use Rattle.dpl_spec_elements.specs.Motions.{image, IsMotionWithin, IsComposed};
ghost use Rattle.dpl_walk.specs.Cells.{copy_motion, IsReady};
ghost use Rattle.dpl_walk.specs.Kept.{Keeps, AreWalked};
ghost use Rattle.dpl_walk.specs.Walk.{frame_of, IsNext, IsFrame, AreSteep, AreKnown};

use crate::cells::{Cell, Copies};
use crate::copies::copy_place;
use crate::gathered::{Gathered, gather_all};
use dpl_place::{Place, compose};
use std::alloc::{AllocError, Global};

/// The copies of a reference of a placed structure that the walk still has to go to: the one in this column and row,
/// those above it in its column, and all in the columns behind.
#[derive(Clone, Copy)]
pub(crate) struct StackFrame {
    pub(crate) copies: Copies,
    /// Where the reference's structure is placed.
    pub(crate) place: Place,
    pub(crate) column: u32,
    pub(crate) row: u32,
}

/// The placement of a frame's copy.
fn place_of(frame: &StackFrame) -> Place
    requires ready { IsReady (2 ^ 60) frame.now.copies }
    requires frame { IsFrame frame.now }
    requires place { IsMotionWithin (2 ^ 61) frame.now.place }
    ensures { IsComposed frame.now.place (copy_motion frame.now.copies frame.now.column frame.now.row) result }
{
    compose(
        &frame.place,
        &copy_place(&frame.copies, frame.column, frame.row),
    )
}

/// Puts a frame for each reference of a placed structure on the stack.
fn put_all(place: &Place, copies: &[Copies], stack: &mut Vec<StackFrame>) -> Result<(), AllocError>
    ensures { OnOk result (stack.new.items ≡ stack.old.items ++ map (frame_of place.now) copies.now) }
{
    for array in copies {
        stack.push(StackFrame {
            copies: *array,
            place: *place,
            column: 0,
            row: 0,
        })?;
    }
    Ok(())
}

/// Gathers what a placed structure draws, and puts what it refers to on the stack.
fn visit(
    alloc: Global,
    cell: &Cell,
    place: &Place,
    gathered: &mut Gathered,
    stack: &mut Vec<StackFrame>,
) -> Result<(), AllocError>
    requires place { IsMotionWithin (2 ^ 61) place.now }
    requires points { All (λ o. ArePointsWithin (2 ^ 61) o.points) cell.now.outlines }
    ensures gathered { OnOk result (Keeps cell.now.outlines (image place.now) gathered.old gathered.new) }
    ensures put { OnOk result (stack.new.items ≡ stack.old.items ++ map (frame_of place.now) cell.now.copies) }
{
    gather_all(alloc, place, cell.outlines.items(), gathered)?;
    put_all(place, cell.copies.items(), stack)?;
    Ok(())
}

/// What is left behind a frame's copy.
fn next_of(frame: StackFrame) -> Option<StackFrame>
    requires small { IsReady (2 ^ 60) frame.copies }
    requires frame { IsFrame frame }
    ensures { IsNext frame result }
{
    if frame.row + 1 < frame.copies.rows {
        return Some(StackFrame {
            row: frame.row + 1,
            ..frame
        });
    }
    if frame.column + 1 < frame.copies.columns {
        return Some(StackFrame {
            column: frame.column + 1,
            row: 0,
            ..frame
        });
    }
    None
}

/// Puts back what is left behind a frame's copy.
fn put_next(frame: StackFrame, stack: &mut Vec<StackFrame>) -> Result<(), AllocError>
    requires small { IsReady (2 ^ 60) frame.copies }
    requires frame { IsFrame frame }
    ensures { OnOk result ((next : Option StackFrame) × IsNext frame next × (stack.new.items ≡ stack.old.items ++ option_to_list next)) }
{
    if let Some(next) = next_of(frame) {
        stack.push(next)?;
    }
    Ok(())
}

/// Goes through all placements below a structure.
pub(crate) fn walk_from(alloc: Global, cells: &[Cell], top: u32) -> Result<Gathered, AllocError>
    requires known { AreKnown (2 ^ 60) cells.now }
    requires steep { AreSteep cells.now }
    requires few { length cells.now ≤ 2 ^ 26 }
    requires top { top < length cells.now }
    ensures { IfOk result (λ g. AreWalked cells.now top g) }
{
    let mut gathered = Gathered {
        rects: Vec::new(alloc),
        loops: Vec::new(alloc),
        far: None,
    };
    let mut stack = Vec::new(alloc);
    let start = Place::unit();
    visit(
        alloc,
        &cells[top as usize],
        &start,
        &mut gathered,
        &mut stack,
    )?;
    while let Some(frame) = stack.pop() {
        put_next(frame, &mut stack)?;
        let place = place_of(&frame);
        let cell = &cells[frame.copies.target as usize];
        visit(alloc, cell, &place, &mut gathered, &mut stack)?;
    }
    Ok(gathered)
}
