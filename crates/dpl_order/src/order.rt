//! The orders in which pieces and slabs stand.
ghost use Rattle.std.specs.List.Sorted.{IsPermutation};
ghost use Rattle.dpl_order.specs.Orders.{ColumnsRise, CornersRise};

use dpl_sort::{sort_by_key, sort_slice_by_key};
use dpl_spec_split::Rect;

/// By columns, and of the same columns the lowest first.
pub fn sort_by_columns(pieces: &mut Vec<Rect>)
    ensures same { IsPermutation pieces.old.items pieces.new.items }
    ensures rise { ColumnsRise pieces.new.items }
{
    sort_by_key(pieces, |r| (r.x0, r.x1, r.y0));
}

/// By first row, then by left column.
pub fn sort_slice_by_corner(rects: &mut [Rect])
    ensures same { IsPermutation rects.old rects.new }
    ensures rise { CornersRise rects.new }
{
    sort_slice_by_key(rects, |r| (r.y0, r.x0));
}

/// A list by first row, then by left column.
pub fn sort_by_corner(rects: &mut Vec<Rect>)
    ensures same { IsPermutation rects.old.items rects.new.items }
    ensures rise { CornersRise rects.new.items }
{
    sort_by_key(rects, |r| (r.y0, r.x0));
}
