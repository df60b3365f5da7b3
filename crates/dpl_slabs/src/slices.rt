//! Many rectangles, less holes or none, slice by slice of their rows. What reaches through a slice, of the rectangles and of the holes, goes by columns in one walk. Only what begins or ends in a slice is swept, with the bars and holes in its columns or beside them.
ghost use Rattle.std.specs.Prelude.{◌<◌, ◌↔◌, ◌≤ℤ◌, ◌++◌, IsTrue, IfOk, IfSome, OnOk};
ghost use Rattle.std.specs.List.{All, AllPairs};
ghost use Rattle.std.specs.List.Sorted.{IsPermutation};
ghost use Rattle.dpl_spec_split.specs.Squares.{Covers};
ghost use Rattle.dpl_spec_split.specs.Slabs.{StandApart, AreSlabsOf};
ghost use Rattle.dpl_spec_split.specs.Loops.{farthest, IsRectWithin, AreRectsWithin};
ghost use Rattle.dpl_slabs.specs.Rows.{AreAllLevel, AreSpaced, IsRow};
ghost use Rattle.dpl_order.specs.Pieces.{AreApart};
ghost use Rattle.dpl_slabs.specs.Made.{IsSlice};
ghost use Rattle.dpl_slabs.specs.Slices.{InRows, Without, IsPartOf, Widens, PushesBar, AddsPart, IsCutTo, ArePiecesBelow, ArePiecesOf};

use crate::combine::{combine_lists_without, combine_without, upward_without};
use crate::gaps::bars_without;
use crate::made::{InTurn, Slice, Slicing, taken};
use crate::row::{is_spaced, slabs_of_row};
use dpl_bars::{add_touching, alone_of};
use dpl_base::{FARTHEST, Rect};
use dpl_order::{join_pieces, slabs_of, sort_by_corner};
use std::alloc::{AllocError, Global};

/// From how many rectangles and holes on they are swept slice by slice.
pub const TALL: usize = 4096;

/// How many slices there are at most, but for those that begin and end with wide rectangles.
const SLICES: usize = 24;

/// With how many wide rectangles slices begin and end at most.
const WIDE: usize = 16;

/// About more than how many times as wide as the average the widest of many rectangles is, where slices begin and end with wide ones.
const TIMES_AVERAGE: u64 = 8;

/// How many pieces there may be for each rectangle and hole. Wires that cross others make many.
const PIECES: usize = 3;

/// How many rectangles and holes are asked about where they begin and end, at most, before slices are cut.
const ASKED: usize = 16_384;

/// A row above all rectangles.
pub const TOP: i32 = FARTHEST as i32 + 1;

/// The lowest row of rectangles.
pub const BOTTOM: i32 = -(FARTHEST as i32);

/// The part of a rectangle in rows `low` to `high - 1`.
fn part_of(r: &Rect, low: i32, high: i32) -> Rect
    ensures { IsPartOf low high r.now result }
{
    Rect {
        x0: r.x0,
        y0: r.y0.max(low),
        x1: r.x1,
        y1: r.y1.min(high),
    }
}

/// Whether the bar begins in the columns of the last one or at their end, in the same rows.
fn widens(last: &Rect, bar: &Rect) -> bool
    ensures { IsTrue result ↔ Widens last.now bar.now }
{
    if last.y0 != bar.y0 {
        return false;
    }
    if last.y1 != bar.y1 {
        return false;
    }
    if bar.x0 < last.x0 {
        return false;
    }
    bar.x0 <= last.x1
}

/// Adds a bar, or makes the last one wider by it.
fn push_bar(bars: &mut Vec<Rect>, bar: Rect) -> Result<(), AllocError>
    ensures { OnOk result (PushesBar bars.old.items bars.new.items bar) }
{
    match bars.pop() {
        None => {
            bars.push(bar)?;
            Ok(())
        }
        Some(last) => {
            if widens(&last, &bar) {
                let x1 = last.x1.max(bar.x1);
                bars.push(Rect { x1, ..last })?;
                return Ok(());
            }
            bars.push(last)?;
            bars.push(bar)?;
            Ok(())
        }
    }
}

/// Adds the part of a rectangle in rows `low` to `high - 1` to the bars where it has all of the rows, and else to the others.
fn add_part(
    bars: &mut Vec<Rect>,
    others: &mut Vec<Rect>,
    r: &Rect,
    low: i32,
    high: i32,
) -> Result<(), AllocError>
    requires { IsRectWithin farthest r.now }
    ensures { OnOk result (AddsPart low high r.now bars.old.items others.old.items bars.new.items others.new.items) }
{
    let part = part_of(r, low, high);
    if part.x1 <= part.x0 || part.y1 <= part.y0 {
        return Ok(());
    }
    if part.y0 == low && part.y1 == high {
        return push_bar(bars, part);
    }
    others.push(part)?;
    Ok(())
}

/// The slabs of bars of the same rows.
fn row_of(alloc: Global, bars: Vec<Rect>) -> Result<Vec<Rect>, AllocError>
    requires { IsRow bars.items }
    ensures slabs { IfOk result (λ v. AreSlabsOf (Covers bars.items) v.items) }
    ensures spaced { IfOk result (λ v. AreSpaced v.items) }
    ensures level { IfOk result (λ v. AreAllLevel v.items bars.items) }
{
    if bars.is_empty() {
        return Ok(bars);
    }
    let mut bars = bars;
    sort_by_corner(&mut bars);
    if is_spaced(&bars) {
        return Ok(bars);
    }
    slabs_of_row(alloc, &bars)
}

/// The parts of rectangles in rows `low` to `high - 1`: the bars among them, put together by columns, and the others.
fn parts_of(
    alloc: Global,
    rects: &[Rect],
    low: i32,
    high: i32,
) -> Result<(Vec<Rect>, Vec<Rect>), AllocError>
    requires { AreRectsWithin farthest rects.now }
    ensures { IfOk result (λ v. IsCutTo low high rects.now v.0.items v.1.items) }
{
    let mut bars = Vec::new(alloc);
    let mut others = Vec::new(alloc);
    for r in rects {
        add_part(&mut bars, &mut others, r, low, high)?;
    }
    let row = row_of(alloc, bars)?;
    Ok((row, others))
}

/// Both lists in one, in any order: the shorter one is copied.
pub fn put_together(first: Vec<Rect>, second: Vec<Rect>) -> Result<Vec<Rect>, AllocError>
    ensures { IfOk result (λ v. IsPermutation (first.items ++ second.items) v.items) }
{
    let (mut all, more) = if first.len() < second.len() {
        (second, first)
    } else {
        (first, second)
    };
    all.extend_from_slice(&more)?;
    Ok(all)
}

/// Pieces of the squares in rows `low` to `high - 1` that rectangles have and no hole has: what gaps, the bars of the holes, leave of bars, where it stands apart from all that is swept, and the slabs of this. Gaps that stand apart from the other parts aren't swept.
pub fn pieces_of_slice(
    alloc: Global,
    rects: &[Rect],
    holes: &[Rect],
    low: i32,
    high: i32,
) -> Result<Vec<Rect>, AllocError>
    requires rects { AreRectsWithin farthest rects.now }
    requires holes { AreRectsWithin farthest holes.now }
    ensures { IfOk result (λ v. ArePiecesOf (InRows low high (Without rects.now holes.now)) v.items) }
{
    let (bars, mut parts) = parts_of(alloc, rects, low, high)?;
    let (gaps, mut holes) = parts_of(alloc, holes, low, high)?;
    let bars = bars_without(alloc, bars, &gaps)?;
    add_touching(alloc, &mut holes, &gaps, &parts)?;
    drop(gaps);
    let alone = alone_of(alloc, bars, &mut parts, &holes)?;
    let slabs = combine_lists_without(alloc, parts, holes)?;
    put_together(alone, slabs)
}

/// Adds those of the pieces that begin above the row to the others, and gives those that begin in it.
fn set_aside(
    alloc: Global,
    others: &mut Vec<Rect>,
    pieces: Vec<Rect>,
    row: i32,
) -> Result<Vec<Rect>, AllocError>
    ensures { IfOk result (λ v. IsPermutation (others.old.items ++ pieces.items) (others.new.items ++ v.items)) }
{
    let mut starts = Vec::new(alloc);
    for piece in &pieces {
        if row < piece.y0 {
            others.push(*piece)?;
        } else {
            starts.push(*piece)?;
        }
    }
    Ok(starts)
}

/// Pieces of the squares of both lists. Where some of `more`, which begin in row `low`, stand on some of `growing`, they are joined.
fn joined(
    alloc: Global,
    growing: Vec<Rect>,
    more: Vec<Rect>,
    low: i32,
) -> Result<Vec<Rect>, AllocError>
    requires { AreApart (growing.items ++ more.items) }
    ensures { IfOk result (λ v. ArePiecesOf (Covers (growing.items ++ more.items)) v.items) }
{
    if growing.is_empty() {
        return Ok(more);
    }
    let mut others = Vec::new(alloc);
    let starts = set_aside(alloc, &mut others, more, low)?;
    let both = put_together(growing, starts)?;
    put_together(others, join_pieces(both))
}

/// Adds those of the pieces that end below row `high` to the ones that are done, and gives the others.
fn settle(
    alloc: Global,
    done: &mut Vec<Rect>,
    pieces: Vec<Rect>,
    high: i32,
) -> Result<Vec<Rect>, AllocError>
    ensures { IfOk result (λ v. IsPermutation (done.old.items ++ pieces.items) (done.new.items ++ v.items)) }
{
    let mut growing = Vec::new(alloc);
    for piece in &pieces {
        if piece.y1 < high {
            done.push(*piece)?;
        } else {
            growing.push(*piece)?;
        }
    }
    Ok(growing)
}

/// Pieces of the squares in rows `low` to `high - 1`: those of the next slice that was made, if it has these rows, else they are made now.
fn pieces_at(
    alloc: Global,
    made: &mut Vec<Slice>,
    rects: &[Rect],
    holes: &[Rect],
    low: i32,
    high: i32,
) -> Result<Vec<Rect>, AllocError>
    requires rects { AreRectsWithin farthest rects.now }
    requires holes { AreRectsWithin farthest holes.now }
    requires made { All (IsSlice rects.now holes.now) made.old.items }
    ensures pieces { IfOk result (λ v. ArePiecesOf (InRows low high (Without rects.now holes.now)) v.items) }
    ensures made { All (IsSlice rects.now holes.now) made.new.items }
{
    match taken(made, low, high) {
        Some(slice) => Ok(slice.pieces),
        None => pieces_of_slice(alloc, rects, holes, low, high),
    }
}

/// Adds pieces of the squares from row `low` up to `high`, where `done` and `growing` have all squares below. Those that end at row `high` may grow, as others may stand on them. Gives them, and the row below which all squares are in pieces then.
fn add_slice(
    alloc: Global,
    made: &mut Vec<Slice>,
    done: &mut Vec<Rect>,
    growing: Vec<Rect>,
    rects: &[Rect],
    holes: &[Rect],
    low: i32,
    high: i32,
) -> Result<(Vec<Rect>, i32), AllocError>
    requires rects { AreRectsWithin farthest rects.now }
    requires holes { AreRectsWithin farthest holes.now }
    requires made { All (IsSlice rects.now holes.now) made.old.items }
    requires below { ArePiecesBelow low (Without rects.now holes.now) (done.old.items ++ growing.items) }
    ensures below { IfOk result (λ v. ArePiecesBelow v.1 (Without rects.now holes.now) (done.new.items ++ v.0.items)) }
    ensures over { IfOk result (λ v. high ≤ℤ v.1) }
    ensures made { All (IsSlice rects.now holes.now) made.new.items }
{
    if high <= low {
        return Ok((growing, low));
    }
    let more = pieces_at(alloc, made, rects, holes, low, high)?;
    let pieces = joined(alloc, growing, more, low)?;
    let growing = settle(alloc, done, pieces, high)?;
    Ok((growing, high))
}

/// Adds the rows in which some rectangles begin and end, one of so many.
fn add_ends(ends: &mut Vec<i32>, rects: &[Rect], of: usize) -> Result<(), AllocError>
    requires { 0 < of }
{
    for i in (0..rects.len()).step_by(of) {
        ends.push(rects[i].y0)?;
        ends.push(rects[i].y1)?;
    }
    Ok(())
}

/// Adds rows that cut the rows of rectangles and holes into slices, in which about as many of both begin or end.
fn add_even_cuts(
    alloc: Global,
    cuts: &mut Vec<i32>,
    rects: &[Rect],
    holes: &[Rect],
) -> Result<(), AllocError> {
    let of = rects.len().saturating_add(holes.len()) / ASKED + 1;
    let mut ends = Vec::with_capacity(alloc, 2 * ASKED)?;
    add_ends(&mut ends, rects, of)?;
    add_ends(&mut ends, holes, of)?;
    ends.sort_unstable();
    let step = ends.len() / SLICES + 1;
    for i in (step..ends.len()).step_by(step) {
        cuts.push(ends[i])?;
    }
    Ok(())
}

/// How many columns a rectangle has.
fn width(r: &Rect) -> u64 {
    if r.x1 <= r.x0 {
        return 0;
    }
    r.x0.abs_diff(r.x1) as u64
}

/// Half of the columns of the widest rectangle, where that is far wider than the average or where there are few.
fn half_of_widest(rects: &[Rect]) -> Option<u64> {
    let mut widest: u64 = 0;
    let mut sum: u64 = 0;
    for r in rects {
        widest = widest.max(width(r));
        sum = sum.saturating_add(width(r));
    }
    let average = sum / (rects.len() as u64).max(1);
    if rects.len() > WIDE && widest / TIMES_AVERAGE <= average {
        return None;
    }
    Some(widest / 2)
}

/// The rows in which rectangles wider than half of the widest one begin and end. There are none where more than 16 are as wide as that, and none where there are more than 16 rectangles and the widest isn't far wider than the average.
fn wide_ends(alloc: Global, rects: &[Rect]) -> Result<Vec<i32>, AllocError> {
    let Some(half) = half_of_widest(rects) else {
        return Ok(Vec::new(alloc));
    };
    let mut ends = Vec::with_capacity(alloc, 2 * WIDE)?;
    for r in rects {
        if width(r) <= half {
            continue;
        }
        if ends.len() >= 2 * WIDE {
            return Ok(Vec::new(alloc));
        }
        ends.push(r.y0)?;
        ends.push(r.y1)?;
    }
    Ok(ends)
}

/// Rows that cut rectangles and holes into slices, from the lowest row up. Slices begin and end with wide rectangles where at most 16 are wide, and where the widest is far wider than the average or there are at most 16 rectangles in all: with a part of a wide one all bars in its columns would be swept.
fn cuts(alloc: Global, rects: &[Rect], holes: &[Rect]) -> Result<Vec<i32>, AllocError> {
    let mut cuts = wide_ends(alloc, rects)?;
    add_even_cuts(alloc, &mut cuts, rects, holes)?;
    cuts.sort_unstable();
    cuts.dedup();
    Ok(cuts)
}

/// How many pieces of slices there may be.
pub fn most_pieces(rects: &[Rect], holes: &[Rect]) -> usize {
    rects
        .len()
        .saturating_add(holes.len())
        .saturating_mul(PIECES)
}

/// Pieces of the squares that rectangles have and no hole has, of which no two share one, or none where slices would make too many of them.
fn pieces_of_slices<S: Slicing>(
    alloc: Global,
    slicing: &S,
    rects: &[Rect],
    holes: &[Rect],
) -> Result<Option<Vec<Rect>>, AllocError>
    requires ready { S.ready }
    requires rects { AreRectsWithin farthest rects.now }
    requires holes { AreRectsWithin farthest holes.now }
    ensures { IfOk result (λ found. IfSome found (λ v. ArePiecesOf (Without rects.now holes.now) v.items)) }
{
    let cuts = cuts(alloc, rects, holes)?;
    let most = most_pieces(rects, holes);
    let mut made = slicing.made(alloc, rects, holes, &cuts)?;
    let (mut done, mut growing) = (Vec::new(alloc), Vec::new(alloc));
    let mut low = BOTTOM;
    for &cut in &cuts {
        (growing, low) = add_slice(alloc, &mut made, &mut done, growing, rects, holes, low, cut)?;
        if done.len().saturating_add(growing.len()) > most {
            return Ok(None);
        }
    }
    let (growing, _) = add_slice(alloc, &mut made, &mut done, growing, rects, holes, low, TOP)?;
    let pieces = put_together(done, growing)?;
    Ok(Some(pieces))
}

/// The pieces of slices, or none where all is to be swept at once.
pub fn sliced<S: Slicing>(
    alloc: Global,
    slicing: &S,
    rects: &[Rect],
    holes: &[Rect],
) -> Result<Option<Vec<Rect>>, AllocError>
    requires ready { S.ready }
    requires rects { AreRectsWithin farthest rects.now }
    requires holes { AreRectsWithin farthest holes.now }
    ensures { IfOk result (λ found. IfSome found (λ v. ArePiecesOf (Without rects.now holes.now) v.items)) }
{
    if rects.len().saturating_add(holes.len()) < TALL {
        return Ok(None);
    }
    pieces_of_slices(alloc, slicing, rects, holes)
}

/// The slabs of the squares that rectangles have and no hole has: where there are many of both together, slice by slice, unless that makes too many pieces.
pub fn slabs_without<S: Slicing>(
    alloc: Global,
    slicing: &S,
    rects: &[Rect],
    holes: &[Rect],
) -> Result<Vec<Rect>, AllocError>
    requires ready { S.ready }
    requires rects { AreRectsWithin farthest rects.now }
    requires holes { AreRectsWithin farthest holes.now }
    ensures slabs { IfOk result (λ v. AreSlabsOf (Without rects.now holes.now) v.items) }
    ensures within { IfOk result (λ v. AreRectsWithin farthest v.items) }
{
    if let Some(pieces) = sliced(alloc, slicing, rects, holes)? {
        return Ok(slabs_of(pieces));
    }
    combine_without(alloc, rects, holes)
}

/// The slabs of the squares that rectangles have and no hole has: of many, by one sweep from the lowest row up, unless too many of both lie side by side.
pub fn slabs_left(alloc: Global, rects: &[Rect], holes: &[Rect]) -> Result<Vec<Rect>, AllocError>
    requires rects { AreRectsWithin farthest rects.now }
    requires holes { AreRectsWithin farthest holes.now }
    ensures slabs { IfOk result (λ v. AreSlabsOf (Without rects.now holes.now) v.items) }
    ensures within { IfOk result (λ v. AreRectsWithin farthest v.items) }
{
    if let Some(slabs) = upward_without(alloc, rects, holes)? {
        return Ok(slabs);
    }
    slabs_without(alloc, &InTurn, rects, holes)
}
