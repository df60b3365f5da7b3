//! Strips one above another, which are swept in their order, and some of which workers sweep before their turn.
ghost use Rattle.std.specs.Prelude.{◌≡◌, ◌<◌, ◌≤◌, IfOk, IfSome, OnOk, length};
ghost use Rattle.std.specs.List.{All, Contains};
ghost use Rattle.dpl_spec_split.specs.Loops.{farthest, AreRectsWithin};
ghost use Rattle.dpl_order.specs.Orders.{CornersRise};
ghost use Rattle.dpl_slabs.specs.declared.swept.Swept.{Swept as SweptOf};
ghost use Rattle.dpl_slabs.specs.Made.{IsSwept};

use crate::ahead::{StripShares, place_of, shares};
use crate::blocks::has_tall_strip;
use crate::made::{InTurn, Slicing};
use crate::strips::{add_strip, strip_length};
use dpl_base::Rect;
use std::alloc::{AllocError, Global};
use std::thread::{Threads, map_chunks};

/// The slabs of strips: of the rectangles from one place on up to another.
#[derive(Drop)]
pub struct Swept {
    pub start: usize,
    pub end: usize,
    pub slabs: Vec<Rect>,
}

/// From how many rectangles on workers share strips.
const MANY: usize = 8192;

/// Takes the strips from this place on from the end of the list, if they are there.
fn taken_strips(made: &mut Vec<Swept>, start: usize) -> Option<Swept>
    ensures taken { IfSome result (λ s. Contains made.old.items s × (s.start ≡ start)) }
    ensures some { IfSome result (λ s. start < s.end) }
    ensures others { (s : SweptOf) → Contains made.new.items s → Contains made.old.items s }
{
    let next = made.last()?;
    if next.start != start || next.end <= start {
        return None;
    }
    made.pop()
}

/// Adds the slabs of the next strips that were made before their turn, or else those of the next strip.
fn add_next<S: Slicing>(
    alloc: Global,
    slicing: &S,
    made: &mut Vec<Swept>,
    swept: &mut Swept,
    rects: &[Rect],
) -> Result<(), AllocError>
    requires ready { S.ready }
    requires some { swept.old.end < length rects.now }
    requires made { All (IsSwept rects.now) made.old.items }
    requires swept { IsSwept rects.now swept.old }
    ensures made { All (IsSwept rects.now) made.new.items }
    ensures swept { OnOk result (IsSwept rects.now swept.new) }
    ensures more { OnOk result (swept.old.end < swept.new.end) }
    ensures start { OnOk result (swept.new.start ≡ swept.old.start) }
{
    if let Some(next) = taken_strips(made, swept.end) {
        swept.slabs.extend_from_slice(&next.slabs)?;
        swept.end = next.end;
        return Ok(());
    }
    let rest = &rects[swept.end..];
    let count = strip_length(rest);
    add_strip(alloc, slicing, &mut swept.slabs, &rest[..count])?;
    swept.end += count;
    Ok(())
}

/// The slabs of the strips of rectangles, which go by first row, from one place on, which a strip begins at, up to another. Some of the strips were made before their turn.
pub fn sweep_strips<S: Slicing>(
    alloc: Global,
    slicing: &S,
    made: Vec<Swept>,
    rects: &[Rect],
    start: usize,
    end: usize,
) -> Result<Swept, AllocError>
    requires ready { S.ready }
    requires within { AreRectsWithin farthest rects.now }
    requires rise { CornersRise rects.now }
    requires made { All (IsSwept rects.now) made.items }
    requires end { end ≤ length rects.now }
    ensures swept { IfOk result (IsSwept rects.now) }
    ensures start { IfOk result (λ s. s.start ≡ start) }
    ensures end { IfOk result (λ s. end ≤ s.end) }
{
    let mut made = made;
    let slabs = Vec::with_capacity(alloc, end.saturating_sub(start))?;
    let mut swept = Swept {
        start,
        end: start,
        slabs,
    };
    while swept.end < end {
        add_next(alloc, slicing, &mut made, &mut swept, rects)?;
    }
    Ok(swept)
}

/// The slabs of the strips of rectangles, which go by first row, the last first, made by so many workers. None where one worker is asked for, or where there are few rectangles, one share of strips alone, or a tall strip, of which workers share slices.
pub fn strips_by<R: Threads + Sync>(
    rt: &R,
    alloc: Global,
    rects: &[Rect],
    workers: u32,
) -> Result<Vec<Swept>, AllocError>
    requires within { AreRectsWithin farthest rects.now }
    requires rise { CornersRise rects.now }
    ensures { IfOk result (λ v. All (IsSwept rects.now) v.items) }
{
    let mut made = Vec::new(alloc);
    if workers <= 1 || rects.len() < MANY || has_tall_strip(rects) {
        return Ok(made);
    }
    let StripShares { starts, .. } = shares(alloc, rects, workers)?;
    if starts.len() < 2 {
        return Ok(made);
    }
    let all = map_chunks(
        rt,
        alloc,
        &starts,
        1,
        &|place, share| {
            let end = place_of(&starts, place + share.len(), rects.len()).min(rects.len());
            let start = place_of(share, 0, end);
            sweep_strips(alloc, &InTurn, Vec::new(alloc), rects, start, end)
        },
    )?;
    for swept in all {
        let swept = swept?;
        made.push(swept)?;
    }
    made.reverse();
    Ok(made)
}
