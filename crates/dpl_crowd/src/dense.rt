//! How many things there are to a square with sides of the rule. No clause tells it: it shows in no answer.
use dpl_base::{Rect, round_one};
use dpl_slabs::Slabs;

/// How many slabs a square with sides of the rule has on average where they are dense, and how many features where they are crowded.
const DENSE: u64 = 64;

/// How many slabs the parts have together; where that is more than `most`, some number above `most`.
pub fn slab_count(parts: &[Slabs], most: u64) -> u64 {
    let mut count: u64 = 0;
    for part in parts {
        count = count.saturating_add(part.rects().len() as u64);
        if count > most {
            return count;
        }
    }
    count
}

/// Whether a square with sides of the rule, in database units, has many of `count` things, on average over the rectangle round all parts. Once the rectangle round some of them is too large for that, the others aren't looked at.
pub fn are_many(parts: &[Slabs], rule: u32, count: u64) -> bool {
    let mut around = None;
    for part in parts {
        for r in part.rects() {
            around = round_one(around, r);
        }
        if let Some(around) = &around
            && !is_dense(around, rule, count)
        {
            return false;
        }
    }
    around.is_some()
}

/// Whether a square with sides of the rule has many of `count` things, on average over this rectangle.
fn is_dense(around: &Rect, rule: u32, count: u64) -> bool {
    let side = rule.max(1) as u64;
    let columns = around.x0.abs_diff(around.x1) as u64 / side + 1;
    let rows = around.y0.abs_diff(around.y1) as u64 / side + 1;
    columns.saturating_mul(rows).saturating_mul(DENSE) < count
}
