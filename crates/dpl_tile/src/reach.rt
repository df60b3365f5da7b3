//! What of a rectangle may be near another.
ghost use Rattle.std.specs.Prelude.{◌≡◌, pos, ◌+ℤ◌, ◌-ℤ◌};
ghost use Rattle.std.specs.Int.{int_min, int_max};
ghost use Rattle.dpl_tile.specs.Meetings.{reached};

use dpl_base::Rect;

/// What is so far below.
fn below(high: i32, by: u32) -> i64
    ensures { result ≡ high -ℤ pos by }
{
    high as i64 - by as i64
}

/// What is so far above.
fn above(low: i32, by: u32) -> i64
    ensures { result ≡ low +ℤ pos by }
{
    low as i64 + by as i64
}

/// Where what begins at `a` may first be within the rule of what begins at `b`.
fn low_reached(a: i32, b: i32, rule: u32) -> i32
    ensures { result ≡ int_max a (b -ℤ pos rule) }
{
    let low = below(b, rule);
    if low <= a as i64 {
        return a;
    }
    low as i32
}

/// Where what ends at `a` may last be within the rule of what ends at `b`.
fn high_reached(a: i32, b: i32, rule: u32) -> i32
    ensures { result ≡ int_min a (b +ℤ pos rule) }
{
    let high = above(b, rule);
    if a as i64 <= high {
        return a;
    }
    high as i32
}

/// A part of `a` with all its squares that fewer than `rule` columns and rows lie between and some square of `b`.
pub(crate) fn reached(a: &Rect, b: &Rect, rule: u32) -> Rect
    ensures { result ≡ reached rule a.now b.now }
{
    Rect {
        x0: low_reached(a.x0, b.x0, rule),
        y0: low_reached(a.y0, b.y0, rule),
        x1: high_reached(a.x1, b.x1, rule),
        y1: high_reached(a.y1, b.y1, rule),
    }
}
