//! Where the copies of a reference stand.

ghost use Rattle.std.specs.Prelude.{◌≡◌, ◌^◌, ◌*◌, ◌<◌, ◌≤◌, unsigned_abs, pos, ◌+ℤ◌, ◌*ℤ◌};
ghost use Rattle.dpl_spec_elements.specs.Motions.{IsMotionWithin};
ghost use Rattle.dpl_walk.specs.Cells.{copy_motion, IsReady};

use crate::cells::Copies;
use dpl_place::Place;

/// How far so many steps lead along one axis.
fn along(count: u32, step: i64) -> i64
    requires { count * unsigned_abs step ≤ 2 ^ 32 }
    ensures value { result ≡ pos count *ℤ step }
    ensures within { unsigned_abs result ≤ 2 ^ 32 }
{
    count as i64 * step
}

/// A coordinate of copy (`i`, `j`).
fn coordinate(origin: i64, across: i64, up: i64, i: u32, j: u32) -> i64
    requires origin { unsigned_abs origin ≤ 2 ^ 60 }
    requires across { i * unsigned_abs across ≤ 2 ^ 32 }
    requires up { j * unsigned_abs up ≤ 2 ^ 32 }
    ensures value { result ≡ (origin +ℤ (pos i *ℤ across)) +ℤ (pos j *ℤ up) }
    ensures within { unsigned_abs result ≤ 2 ^ 61 }
{
    let column = origin + along(i, across);
    column + along(j, up)
}

/// The placement of copy (`i`, `j`) in the coordinates of the reference's structure.
pub(crate) fn copy_place(copies: &Copies, i: u32, j: u32) -> Place
    requires ready { IsReady (2 ^ 60) copies.now }
    requires i { i < copies.now.columns }
    requires j { j < copies.now.rows }
    ensures place { result ≡ copy_motion copies.now i j }
    ensures within { IsMotionWithin (2 ^ 61) result }
{
    let dx = coordinate(copies.origin.x, copies.across.x, copies.up.x, i, j);
    let dy = coordinate(copies.origin.y, copies.across.y, copies.up.y, i, j);
    Place::new(copies.reflect, copies.turns, dx, dy)
}
