//! What references are refused for.

ghost use Rattle.std.specs.Prelude.{◌≡◌, ◌≢◌, ◌^◌, ◌≤◌, ◌↔◌, pos, ◌-ℤ◌, ◌≤ℤ◌, unsigned_abs, bit_and, length, unwrap_or, IsTrue};
ghost use Rattle.std.specs.Option.{option_map};
ghost use Rattle.dpl_spec_split.specs.Loops.{IsPointWithin};
ghost use Rattle.dpl_syntax.specs.Elements.{trans_seen};
ghost use Rattle.dpl_spec_layout.specs.Elements.{plain, IsMagnified, IsTurnedAskew, IsReferenceFault, Divides, IsArray};
ghost use Rattle.dpl_reference.specs.Faults.{IsTransformFault, IsFaultBy, DividesBoth};

use crate::point_at;
use dpl_base::Pt;
use dpl_reals::Real;
use dpl_spec_layout::ElementFault;
use dpl_syntax::Trans;

/// The flag of STRANS for an absolute magnification.
const ABSOLUTE_MAGNIFICATION: u16 = 0x0004;

/// The flag of STRANS for an absolute angle.
const ABSOLUTE_ANGLE: u16 = 0x0002;

/// Whether STRANS asks for an absolute magnification or angle.
fn is_absolute(strans: u16) -> bool
    ensures { IsTrue result ↔ (bit_and strans 6 ≢ 0) }
{
    strans & (ABSOLUTE_MAGNIFICATION | ABSOLUTE_ANGLE) != 0
}

/// Whether MAG is there and isn't 1.
fn is_magnified(mag: Option<[u8; 8]>) -> bool
    ensures { IsTrue result ↔ IsMagnified mag }
{
    match mag {
        None => false,
        Some(bytes) => !Real::of(bytes).is_one(),
    }
}

/// Whether ANGLE is there and is no whole number of quarter turns.
fn is_turned_askew(angle: Option<[u8; 8]>) -> bool
    ensures { IsTrue result ↔ IsTurnedAskew angle }
{
    match angle {
        None => false,
        Some(bytes) => Real::of(bytes).quarter_turns().is_none(),
    }
}

/// What a transform is refused for.
fn transform_fault(trans: &Trans) -> Option<ElementFault>
    ensures { IsTransformFault (trans_seen trans.now) result }
{
    if is_absolute(trans.strans) {
        return Some(ElementFault::AbsoluteTransform);
    }
    if is_magnified(trans.mag) {
        return Some(ElementFault::Magnified);
    }
    if is_turned_askew(trans.angle) {
        return Some(ElementFault::AngleNotRight);
    }
    None
}

/// What the transform of a reference is refused for, if it has one.
fn own_fault(trans: Option<Trans>) -> Option<ElementFault>
    ensures { IsTransformFault (unwrap_or (option_map trans_seen trans) plain) result }
{
    transform_fault(&trans?)
}

/// What a reference to one copy is refused for.
pub fn single_fault(trans: Option<Trans>) -> Option<ElementFault>
    ensures { IsFaultBy (IsReferenceFault (unwrap_or (option_map trans_seen trans) plain) ⊥) result }
{
    own_fault(trans)
}

/// Whether a difference is a multiple of a number of columns or rows.
fn is_multiple(count: i16, difference: i64) -> bool
    requires { pos 1 ≤ℤ count }
    ensures { IsTrue result ↔ Divides count difference }
{
    difference % count as i64 == 0
}

/// Whether the difference of two coordinates is a multiple of `count`.
fn divides(count: i16, from: i64, to: i64) -> bool
    requires count { pos 1 ≤ℤ count }
    requires from { unsigned_abs from ≤ 2 ^ 31 }
    requires to { unsigned_abs to ≤ 2 ^ 31 }
    ensures { IsTrue result ↔ Divides count (to -ℤ from) }
{
    is_multiple(count, to - from)
}

/// Whether both coordinates of the difference of two points are multiples of `count`.
fn divides_both(count: i16, from: Pt, to: Pt) -> bool
    requires count { pos 1 ≤ℤ count }
    requires from { IsPointWithin (2 ^ 31) from }
    requires to { IsPointWithin (2 ^ 31) to }
    ensures { IsTrue result ↔ DividesBoth count from to }
{
    divides(count, from.x, to.x) && divides(count, from.y, to.y)
}

/// Whether an array has a column and a row, and whole spacings between them.
fn is_laid(columns: i16, rows: i16, xy: &[u8]) -> bool
    requires { length xy.now ≡ 24 }
    ensures { IsTrue result ↔ IsArray columns rows xy.now }
{
    if columns < 1 || rows < 1 {
        return false;
    }
    let from = point_at(xy, 0);
    let across = point_at(xy, 1);
    let up = point_at(xy, 2);
    divides_both(columns, from, across) && divides_both(rows, from, up)
}

/// What an array is refused for.
pub fn array_fault(trans: Option<Trans>, columns: i16, rows: i16, xy: &[u8]) -> Option<ElementFault>
    requires { length xy.now ≡ 24 }
    ensures { IsFaultBy (IsReferenceFault (unwrap_or (option_map trans_seen trans) plain) (¬ IsArray columns rows xy.now)) result }
{
    if let Some(fault) = own_fault(trans) {
        return Some(fault);
    }
    if is_laid(columns, rows, xy) {
        None
    } else {
        Some(ElementFault::BadArray)
    }
}
