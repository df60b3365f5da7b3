//! Points and rectangles, how far two rectangles lie apart, the least one round some, and rectangles transposed.
#![tactic(auto)]

mod bounds;
mod loops;
mod transposing;
mod wide;

ghost use Rattle.std.specs.Prelude.{◌≡◌, ◌+◌, ◌*◌, ◌^◌, ◌<◌, ◌≤◌, ◌<ℤ◌, ◌↔◌, IsTrue, IsNone, IfSome, unsigned_abs};
ghost use Rattle.dpl_spec_split.specs.Loops.{IsPointWithin, farthest};
ghost use Rattle.dpl_spec_split.specs.Squares.{Has, IsSquaredDistance, IsSolidWithin, AreNear, AreTouching, IsReach, TooFew};
ghost use Rattle.dpl_base.specs.Spans.{IsSpanGap};

pub use crate::bounds::round_one;
pub use crate::loops::Loop;
pub use crate::transposing::{all_transposed, transpose_all, transposed};
pub use crate::wide::WideRect;
pub use dpl_list::{Edge, Id, Listed, give_back, numbers_below, short_id};
pub use dpl_spec_split::{Pt, Rect, Spacing, Zone};

/// How far from 0 a coordinate of a layer may lie, in database units.
pub const FARTHEST: i64 = 1_000_000_000;

/// Whether neither coordinate of a point lies farther than `FARTHEST` from 0.
pub fn is_in_range(point: &Pt) -> bool
    ensures { IsTrue result ↔ IsPointWithin farthest point.now }
{
    point.x.unsigned_abs() <= FARTHEST as u64 && point.y.unsigned_abs() <= FARTHEST as u64
}

/// How many units lie between the columns `a0` to `a1 - 1` and the columns `b0` to `b1 - 1`.
pub fn span_gap(a0: i32, a1: i32, b0: i32, b1: i32) -> u64
    requires some_a { a0 <ℤ a1 }
    requires some_b { b0 <ℤ b1 }
    ensures gap { IsSpanGap a0 a1 b0 b1 result }
    ensures small { result ≤ 2 ^ 62 }
{
    if a1 <= b0 {
        (b0 as i64 - a1 as i64) as u64
    } else if b1 <= a0 {
        (a0 as i64 - b1 as i64) as u64
    } else {
        0
    }
}

/// The least squared distance of a square of `a` and a square of `b`.
pub fn gap2(a: &Rect, b: &Rect) -> u128
    requires solid_a { IsSolidWithin (2 ^ 61) a.now }
    requires solid_b { IsSolidWithin (2 ^ 61) b.now }
    ensures distance { IsSquaredDistance (Has a.now) (Has b.now) result }
{
    let across = span_gap(a.x0, a.x1, b.x0, b.x1) as u128;
    let up = span_gap(a.y0, a.y1, b.y0, b.y1) as u128;
    across * across + up * up
}

/// Whether so many columns and rows away is less than `least` away, as the crow flies. Squares of what is less than a `u32` fit a `u64`.
fn is_within(across: u64, up: u64, least: u32) -> bool
    ensures { IsTrue result ↔ (across * across + up * up < least * least) }
{
    let least = least as u64;
    if across >= least || up >= least {
        return false;
    }
    across * across < least * least - up * up
}

/// Whether so many columns and rows between two squares, in database units, are too few for one mask.
pub fn too_few(spacing: Spacing, across: u64, up: u64) -> bool
    requires corner { spacing.corner ≤ spacing.rule }
    ensures { IsTrue result ↔ TooFew spacing across up }
{
    let least = if across > 0 && up > 0 {
        spacing.corner
    } else {
        spacing.rule
    };
    is_within(across, up, least)
}

/// Whether some square of `a` is near some square of `b`: closer than the spacing's corner rule where columns and rows lie between the two, else closer than its rule.
pub fn near(a: &Rect, b: &Rect, spacing: Spacing) -> bool
    requires solid_a { IsSolidWithin (2 ^ 61) a.now }
    requires solid_b { IsSolidWithin (2 ^ 61) b.now }
    requires corner { spacing.corner ≤ spacing.rule }
    ensures { IsTrue result ↔ AreNear spacing (Has a.now) (Has b.now) }
{
    let across = span_gap(a.x0, a.x1, b.x0, b.x1);
    let up = span_gap(a.y0, a.y1, b.y0, b.y1);
    too_few(spacing, across, up)
}

/// Whether some square of `a` shares at least a corner with some square of `b`.
pub fn touches(a: &Rect, b: &Rect) -> bool
    requires solid_a { IsSolidWithin (2 ^ 61) a.now }
    requires solid_b { IsSolidWithin (2 ^ 61) b.now }
    ensures { IsTrue result ↔ AreTouching (Has a.now) (Has b.now) }
{
    gap2(a, b) == 0
}

/// The square root of a number below the square of `end`, rounded down. The smaller `end` is, the fewer steps are taken.
fn root_below(n: u64, end: u32) -> u32
    requires { n < end * end }
    ensures square { result * result ≤ n }
    ensures next { n < (result + 1) * (result + 1) }
{
    let mut low = 0;
    let mut high = end;
    while high - low > 1 {
        let middle = low + (high - low) / 2;
        if middle as u64 * middle as u64 <= n {
            low = middle;
        } else {
            high = middle;
        }
    }
    low
}

/// The most columns that may lie between near squares with `dy` rows between them, if any may, in database units.
pub fn reach(spacing: Spacing, dy: u64) -> Option<u32>
    requires corner { spacing.corner ≤ spacing.rule }
    ensures none { IsNone result ↔ (spacing.rule ≤ dy) }
    ensures some { IfSome result (λ r. IsReach spacing dy r) }
{
    if dy >= spacing.rule as u64 {
        None
    } else if dy == 0 {
        Some(spacing.rule - 1)
    } else if dy >= spacing.corner as u64 {
        Some(0)
    } else {
        let corner = spacing.corner as u64;
        let left = corner * corner - dy * dy - 1;
        Some(root_below(left, spacing.corner))
    }
}
