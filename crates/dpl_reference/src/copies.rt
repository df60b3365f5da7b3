//! The copies that a reference places.

ghost use Rattle.std.specs.Prelude.{◌≡◌, ◌*◌, ◌^◌, ◌<◌, ◌≤◌, ◌==◌, not, bit_and, pos, ◌≤ℤ◌, length, unwrap_or, unsigned_abs, ◌-ℤ◌, int_div, IfSome, IfNone};
ghost use Rattle.std.specs.Option.{option_map};
ghost use Rattle.dpl_spec_split.specs.Loops.{IsPointWithin};
ghost use Rattle.dpl_syntax.specs.Elements.{trans_seen};
ghost use Rattle.dpl_spec_layout.specs.Elements.{plain, AreTurns, IsTurnedAskew};
ghost use Rattle.dpl_reference.specs.Copies.{spacing_of, IsOrientation, IsSingleCopy, IsArrayOfCopies};
ghost use Rattle.dpl_walk.specs.Cells.{IsSpanWithin};

use crate::point_at;
use dpl_base::Pt;
use dpl_reals::Real;
use dpl_syntax::Trans;
use dpl_walk::Copies;

/// The flag of STRANS by which copies are reflected.
const REFLECTED: u16 = 0x8000;

/// How a reference reflects and turns its copies.
#[derive(Clone, Copy)]
struct Orientation {
    reflect: bool,
    turns: u8,
}

/// How many quarter turns ANGLE makes.
fn turns_of(angle: Option<[u8; 8]>) -> Option<u8>
    ensures turns { IfSome result (λ n. AreTurns angle n) }
    ensures few { IfSome result (λ n. n < 4) }
    ensures askew { IfNone result (IsTurnedAskew angle) }
{
    match angle {
        None => Some(0),
        Some(bytes) => Real::of(bytes).quarter_turns(),
    }
}

/// Whether STRANS reflects.
fn is_reflected(strans: u16) -> bool
    ensures { result ≡ not (bit_and strans 32768 == 0) }
{
    strans & REFLECTED != 0
}

/// The orientation that a transform gives whose angle is right.
fn orientation_of(trans: &Trans) -> Orientation
    requires { ¬ IsTurnedAskew (trans_seen trans.now).angle }
    ensures { IsOrientation (trans_seen trans.now) result }
{
    match turns_of(trans.angle) {
        Some(turns) => Orientation {
            reflect: is_reflected(trans.strans),
            turns,
        },
        None => unreachable!(),
    }
}

/// The orientation that a reference gives, which may have no transform.
fn own_orientation(trans: Option<Trans>) -> Orientation
    requires { ¬ IsTurnedAskew (unwrap_or (option_map trans_seen trans) plain).angle }
    ensures { IsOrientation (unwrap_or (option_map trans_seen trans) plain) result }
{
    match trans {
        None => Orientation {
            reflect: false,
            turns: 0,
        },
        Some(trans) => orientation_of(&trans),
    }
}

/// One of so many equal parts of a difference.
fn share(count: i16, difference: i64) -> i64
    requires { pos 1 ≤ℤ count }
    ensures value { result ≡ int_div difference count }
{
    difference / count as i64
}

/// One of so many equal parts of the difference of two coordinates.
fn part(count: i16, from: i64, to: i64) -> i64
    requires count { pos 1 ≤ℤ count }
    requires from { unsigned_abs from ≤ 2 ^ 31 }
    requires to { unsigned_abs to ≤ 2 ^ 31 }
    ensures value { result ≡ int_div (to -ℤ from) count }
    ensures within { unsigned_abs count * unsigned_abs result ≤ 2 ^ 32 }
{
    share(count, to - from)
}

/// The spacing of so many columns or rows from one point to another.
fn spacing(from: Pt, to: Pt, count: i16) -> Pt
    requires count { pos 1 ≤ℤ count }
    requires from { IsPointWithin (2 ^ 31) from }
    requires to { IsPointWithin (2 ^ 31) to }
    ensures value { result ≡ spacing_of from to count }
    ensures within { IsSpanWithin (2 ^ 32) (unsigned_abs count) result }
{
    Pt {
        x: part(count, from.x, to.x),
        y: part(count, from.y, to.y),
    }
}

/// The one copy of a single reference.
pub fn single_copy(target: u32, trans: Option<Trans>, xy: &[u8]) -> Copies
    requires points { length xy.now ≡ 8 }
    requires turned { ¬ IsTurnedAskew (unwrap_or (option_map trans_seen trans) plain).angle }
    ensures copies { IsSingleCopy (unwrap_or (option_map trans_seen trans) plain) xy.now result }
    ensures target { result.target ≡ target }
{
    let orientation = own_orientation(trans);
    let still = Pt { x: 0, y: 0 };
    Copies {
        target,
        reflect: orientation.reflect,
        turns: orientation.turns,
        origin: point_at(xy, 0),
        across: still,
        up: still,
        columns: 1,
        rows: 1,
    }
}

/// The copies of an array.
pub fn array_copies(target: u32, trans: Option<Trans>, columns: i16, rows: i16, xy: &[u8]) -> Copies
    requires points { length xy.now ≡ 24 }
    requires columns { pos 1 ≤ℤ columns }
    requires rows { pos 1 ≤ℤ rows }
    requires turned { ¬ IsTurnedAskew (unwrap_or (option_map trans_seen trans) plain).angle }
    ensures copies { IsArrayOfCopies (unwrap_or (option_map trans_seen trans) plain) columns rows xy.now result }
    ensures target { result.target ≡ target }
{
    let orientation = own_orientation(trans);
    let origin = point_at(xy, 0);
    let across = spacing(origin, point_at(xy, 1), columns);
    let up = spacing(origin, point_at(xy, 2), rows);
    Copies {
        target,
        reflect: orientation.reflect,
        turns: orientation.turns,
        origin,
        across,
        up,
        columns: columns.unsigned_abs() as u32,
        rows: rows.unsigned_abs() as u32,
    }
}
