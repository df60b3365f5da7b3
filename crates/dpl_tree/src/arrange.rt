//! Puts items in an order in which those near one another mostly stand near one another.
ghost use Rattle.std.specs.Prelude.{◌<◌};
ghost use Rattle.std.specs.List.Sorted.{IsPermutation};

use crate::blocks::FAN;
use crate::items::StoredItem;
use dpl_sort::sort_slice_by_key;

/// How many items stand in a stretch that is as wide as the stack of items is high.
const NEIGHBOURS: u64 = 4;

/// How far the left sides of items lie apart.
fn width(items: &[StoredItem]) -> u64 {
    let mut left = i32::MAX;
    let mut right = i32::MIN;
    for item in items {
        left = left.min(item.rect.x0);
        right = right.max(item.rect.x0);
    }
    right.abs_diff(left) as u64
}

/// How far the bottoms of the first and the last item lie apart.
fn height(items: &[StoredItem]) -> u64 {
    match (items.first(), items.last()) {
        (Some(first), Some(last)) => last.rect.y0.abs_diff(first.rect.y0) as u64,
        _ => 0,
    }
}

/// Whether items that rise by rows are so low a stack that those next to one another by column lie near one another.
fn is_low(items: &[StoredItem]) -> bool {
    let count = items.len() as u64;
    count.saturating_mul(height(items)) <= width(items).saturating_mul(NEIGHBOURS)
}

/// Whether the bottoms of the first and the last item lie no farther apart than twice the items' height on the average, so that blocks by rows would lie beside each other.
fn is_of_tall_items(items: &[StoredItem]) -> bool {
    let mut heights: u64 = 0;
    for item in items {
        heights = heights.saturating_add(item.rect.y0.abs_diff(item.rect.y1) as u64);
    }
    (items.len() as u64).saturating_mul(height(items)) <= heights.saturating_mul(2)
}

/// Whether left sides lie no farther apart than twice the items' width on the average, so that blocks by columns would lie over one another.
fn is_of_wide_items(items: &[StoredItem]) -> bool {
    let mut widths: u64 = 0;
    for item in items {
        widths = widths.saturating_add(item.rect.x0.abs_diff(item.rect.x1) as u64);
    }
    (items.len() as u64).saturating_mul(width(items)) <= widths.saturating_mul(2)
}

/// Whether items that rise by rows lie farther apart when they go by columns.
fn goes_by_columns(items: &[StoredItem]) -> bool {
    if is_of_wide_items(items) {
        return false;
    }
    is_low(items) || is_of_tall_items(items)
}

/// Where so many items are halved: at the end of a block of the widest kind that doesn't hold them all, so no block of that width or less stands across the two halves.
fn half_of(count: usize) -> usize
    requires { 8 < count }
    ensures some { 0 < result }
    ensures less { result < count }
{
    let mut wide = FAN;
    while wide.saturating_mul(FAN) < count {
        wide *= FAN;
    }
    count.div_ceil(wide) / 2 * wide
}

/// Halves items that rise by rows. A part that is a low stack, or of tall items, is put in order of columns; one of a single block stays as it is.
fn arrange_stack(items: &mut [StoredItem])
    ensures { IsPermutation items.old items.new }
{
    if items.len() <= FAN {
        return;
    }
    if goes_by_columns(items) {
        sort_slice_by_key(items, |t| t.rect.x0);
        return;
    }
    let half = half_of(items.len());
    let (low, high) = items.split_at_mut(half);
    arrange_stack(low);
    arrange_stack(high);
}

/// Puts items in order for a tree of blocks of them: so that the blocks lie apart, as far as they can.
pub fn arrange(items: &mut [StoredItem])
    ensures { IsPermutation items.old items.new }
{
    sort_slice_by_key(items, |t| t.rect.y0);
    arrange_stack(items);
}
