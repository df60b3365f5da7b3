//! Parts of a rectangle that are near the rectangles of a search tree, or of some owners there.
ghost use Rattle.std.specs.Prelude.{◌≡◌, ◌≤◌, ◌^◌, ◌≤ℤ◌, ◌<ℤ◌, ◌+ℤ◌, pos, ◌↔◌, IsTrue, IsNone, IfSome, unsigned_abs};
ghost use Rattle.dpl_spec_split.specs.Loops.{IsRectWithin, farthest};
ghost use Rattle.dpl_spec_split.specs.Slabs.{IsSolid};
ghost use Rattle.dpl_spec_split.specs.Squares.{AreNear, Has};
ghost use Rattle.dpl_nearest.specs.Search.{AreSolidItems, FitsIn32Bits, IsLeastNear, ItemCovers, column_at, columns_left, row_at, rows_below, unit_of};

use dpl_base::{Pt, Rect, Spacing, WideRect, near};
use dpl_tree::{Owners, Tree, widened};

/// The rectangle of one square; none where the column or the row of one of its corners, in database units, doesn't fit in 32 bits.
pub fn unit(p: Pt) -> Option<Rect>
    ensures some { IfSome result (λ r. r ≡ unit_of p) }
    ensures none { IsNone result → ¬ FitsIn32Bits (unit_of p) }
{
    let x0 = i32::try_from(p.x).ok()?;
    let y0 = i32::try_from(p.y).ok()?;
    let x1 = x0.checked_add(1)?;
    let y1 = y0.checked_add(1)?;
    Some(Rect { x0, y0, x1, y1 })
}

/// The window of one square.
pub fn window_at(p: Pt) -> WideRect
    requires x { unsigned_abs p.x ≤ 2 ^ 61 }
    requires y { unsigned_abs p.y ≤ 2 ^ 61 }
    ensures { result ≡ unit_of p }
{
    WideRect::new(p.x, p.y, p.x + 1, p.y + 1)
}

/// The rows of `r` below row `y`.
fn below(r: &Rect, y: i32) -> Rect
    ensures { result ≡ rows_below r.now y }
{
    Rect { y1: y, ..*r }
}

/// Row `y` of `r`.
fn row(r: &Rect, y: i32) -> Rect
    requires { unsigned_abs y ≤ farthest }
    ensures { result ≡ row_at r.now y }
{
    Rect {
        y0: y,
        y1: y + 1,
        ..*r
    }
}

/// The columns of `r` left of column `x`.
fn left(r: &Rect, x: i32) -> Rect
    ensures { result ≡ columns_left r.now x }
{
    Rect { x1: x, ..*r }
}

/// A number about halfway between two others.
fn halfway(low: i32, high: i32) -> i32
    requires apart { (low +ℤ pos 1) <ℤ high }
    requires low { unsigned_abs low ≤ farthest }
    requires high { unsigned_abs high ≤ farthest }
    ensures above { low <ℤ result }
    ensures below { result <ℤ high }
{
    low + (high - low) / 2
}

/// Whether some square of `r` is near a square of the others that are sought.
fn near_any(r: &Rect, others: &Tree, owners: Owners, spacing: Spacing) -> bool
    requires corner { spacing.corner ≤ spacing.rule }
    requires solid { IsSolid r.now }
    requires within { IsRectWithin farthest r.now }
    requires others { AreSolidItems others.now }
    ensures { IsTrue result ↔ AreNear spacing (Has r.now) (ItemCovers owners others.now) }
{
    let window = widened(r, spacing.rule);
    let mut n = others.seek(0, &window, owners);
    while n < others.count() {
        if near(r, &others.item(n).rect, spacing) {
            return true;
        }
        n = others.seek(n + 1, &window, owners);
    }
    false
}

/// Whether some square of `r` below row `y` is near the others.
fn near_below(r: &Rect, y: i32, others: &Tree, owners: Owners, spacing: Spacing) -> bool
    requires corner { spacing.corner ≤ spacing.rule }
    requires solid { IsSolid r.now }
    requires within { IsRectWithin farthest r.now }
    requires low { r.now.y0 <ℤ y }
    requires high { y <ℤ r.now.y1 }
    requires others { AreSolidItems others.now }
    ensures { IsTrue result ↔ AreNear spacing (Has (rows_below r.now y)) (ItemCovers owners others.now) }
{
    let part = below(r, y);
    near_any(&part, others, owners, spacing)
}

/// Whether some square of `r` left of column `x` is near the others.
fn near_left(r: &Rect, x: i32, others: &Tree, owners: Owners, spacing: Spacing) -> bool
    requires corner { spacing.corner ≤ spacing.rule }
    requires solid { IsSolid r.now }
    requires within { IsRectWithin farthest r.now }
    requires low { r.now.x0 <ℤ x }
    requires high { x <ℤ r.now.x1 }
    requires others { AreSolidItems others.now }
    ensures { IsTrue result ↔ AreNear spacing (Has (columns_left r.now x)) (ItemCovers owners others.now) }
{
    let part = left(r, x);
    near_any(&part, others, owners, spacing)
}

/// The first row of `r` with a square that is near the others.
fn first_row(r: &Rect, others: &Tree, owners: Owners, spacing: Spacing) -> i32
    requires corner { spacing.corner ≤ spacing.rule }
    requires solid { IsSolid r.now }
    requires within { IsRectWithin farthest r.now }
    requires others { AreSolidItems others.now }
    requires near { AreNear spacing (Has r.now) (ItemCovers owners others.now) }
    ensures low { r.now.y0 ≤ℤ result }
    ensures high { result <ℤ r.now.y1 }
    ensures near { AreNear spacing (Has (row_at r.now result)) (ItemCovers owners others.now) }
    ensures first { ¬ AreNear spacing (Has (rows_below r.now result)) (ItemCovers owners others.now) }
{
    let mut low = r.y0;
    let mut high = r.y1;
    while high - low > 1 {
        let middle = halfway(low, high);
        if near_below(r, middle, others, owners, spacing) {
            high = middle;
        } else {
            low = middle;
        }
    }
    low
}

/// The first column of `r` with a square that is near the others.
fn first_column(r: &Rect, others: &Tree, owners: Owners, spacing: Spacing) -> i32
    requires corner { spacing.corner ≤ spacing.rule }
    requires solid { IsSolid r.now }
    requires within { IsRectWithin farthest r.now }
    requires others { AreSolidItems others.now }
    requires near { AreNear spacing (Has r.now) (ItemCovers owners others.now) }
    ensures low { r.now.x0 ≤ℤ result }
    ensures high { result <ℤ r.now.x1 }
    ensures near { AreNear spacing (Has (column_at r.now result)) (ItemCovers owners others.now) }
    ensures first { ¬ AreNear spacing (Has (columns_left r.now result)) (ItemCovers owners others.now) }
{
    let mut low = r.x0;
    let mut high = r.x1;
    while high - low > 1 {
        let middle = halfway(low, high);
        if near_left(r, middle, others, owners, spacing) {
            high = middle;
        } else {
            low = middle;
        }
    }
    low
}

/// The least square of `r` that is near the others.
pub(crate) fn least_of(r: &Rect, others: &Tree, owners: Owners, spacing: Spacing) -> Option<Pt>
    requires corner { spacing.corner ≤ spacing.rule }
    requires solid { IsSolid r.now }
    requires within { IsRectWithin farthest r.now }
    requires others { AreSolidItems others.now }
    ensures { IsLeastNear spacing (Has r.now) (ItemCovers owners others.now) result }
{
    if !near_any(r, others, owners, spacing) {
        return None;
    }
    let y = first_row(r, others, owners, spacing);
    let only = row(r, y);
    let x = first_column(&only, others, owners, spacing);
    Some(Pt {
        x: x as i64,
        y: y as i64,
    })
}
