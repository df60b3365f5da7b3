//! Eight-byte reals of the GDSII Stream Format, Release 6: whether one is 1, and which quarter turn an angle makes. No floating point is used.
#![tactic(auto)]

ghost use Rattle.std.specs.Prelude.{◌≡◌, ℕ, ◌+◌, ◌-◌, ◌*◌, ◌%◌, ◌^◌, ◌<◌, ◌↔◌, ℤ, pos, ◌*ℤ◌, List, length, drop, fold, slice_index, if◌then◌else◌, IsTrue, IfNone, IfSome};
ghost use Rattle.dpl_spec_elements.specs.Reals.{Excess64, big_endian, real_of, IsWhole, IsQuarterTurns, IsRightAngle};
ghost use Rattle.dpl_reals.specs.Magnitudes.{IsMagnitude, IsDegrees};

use std::marker::Model;

/// A real of a sign, an exponent to the base 16 that is kept 64 too great, and a mantissa of 56 bits below the point. It need not be normalised.
#[derive(Clone, Copy, Drop)]
pub struct Real {
    negative: bool,
    exponent: u8,
    mantissa: u64,
}

impl Model for Real {
    ghost Value = { Excess64 };

    ghost view = { λ r. record { negative = r.negative; exponent = r.exponent; mantissa = r.mantissa } };

    ghost inverse = { λ r. record { negative = r.negative; exponent = r.exponent; mantissa = r.mantissa } };

    ghost invariant = { λ r. (r.exponent < 128) × (r.mantissa < 2 ^ 56) };
}

/// The number that seven bytes spell, the greatest first.
fn mantissa_of(bytes: &[u8]) -> u64
    requires { length bytes.now ≡ 7 }
    ensures value { result ≡ big_endian bytes.now }
    ensures small { result < 2 ^ 56 }
{
    let mut mantissa = 0;
    for byte in bytes {
        mantissa = mantissa * 256 + *byte as u64;
    }
    mantissa
}

impl Real {
    /// The real that eight bytes spell, as a MAG or ANGLE record has them: a sign bit, seven bits of exponent, and the mantissa, its greatest byte first. Its value is sign * mantissa / 2^56 * 16^(exponent - 64).
    pub fn of(bytes: [u8; 8]) -> Real
        ensures { result ≡ real_of bytes }
    {
        let first = bytes[0];
        let mantissa = mantissa_of(&bytes[1..]);
        Real {
            negative: first >= 128,
            exponent: first % 128,
            mantissa,
        }
    }

    /// Whether it is 1.
    pub fn is_one(&self) -> bool
        ensures { IsTrue result ↔ IsWhole self.now (pos 1) }
    {
        !self.negative && is_unit(self.mantissa, self.exponent)
    }

    /// The quarter turns, beside whole turns, of an angle in degrees: its value / 90 modulo 4. None exactly where the value isn't a whole multiple of 90.
    pub fn quarter_turns(&self) -> Option<u8>
        ensures some { IfSome result (λ n. IsQuarterTurns self.now n) }
        ensures none { IfNone result (IsRightAngle self.now → ⊥) }
    {
        let degrees = degrees_of(self.mantissa, self.exponent)?;
        if degrees % 90 != 0 {
            return None;
        }
        Some(turns_of(self.negative, (degrees / 90) as u8))
    }
}

/// `mantissa * 16^places` modulo 360.
fn shifted_up(mantissa: u64, places: u8) -> u64
    ensures { result ≡ mantissa * 16 ^ places % 360 }
{
    let mut degrees = mantissa % 360;
    for _place in 0..places {
        degrees = degrees * 16 % 360;
    }
    degrees
}

/// `mantissa / 16^places`, where that is a whole number.
fn shifted_down(mantissa: u64, places: u8) -> Option<u64>
    requires { mantissa < 2 ^ 56 }
    ensures some { IfSome result (λ v. mantissa ≡ v * 16 ^ places) }
    ensures none { IfNone result ((v : ℕ) → mantissa ≡ v * 16 ^ places → ⊥) }
{
    if mantissa == 0 {
        return Some(0);
    }
    if places > 13 {
        return None;
    }
    let unit = 16u64.pow(places as u32);
    if mantissa % unit != 0 {
        return None;
    }
    Some(mantissa / unit)
}

/// Whether a mantissa and an exponent make 1.
fn is_unit(mantissa: u64, exponent: u8) -> bool
    requires { mantissa < 2 ^ 56 }
    ensures { IsTrue result ↔ IsMagnitude mantissa exponent 1 }
{
    if exponent > 78 {
        return false;
    }
    match shifted_down(mantissa, 78 - exponent) {
        Some(value) => value == 1,
        None => false,
    }
}

/// What a mantissa and an exponent make, modulo 360, where that is a whole number.
fn degrees_of(mantissa: u64, exponent: u8) -> Option<u64>
    requires { mantissa < 2 ^ 56 }
    ensures some { IfSome result (λ d. IsDegrees mantissa exponent d) }
    ensures none { IfNone result ((v : ℕ) → IsMagnitude mantissa exponent v → ⊥) }
{
    if exponent > 78 {
        return Some(shifted_up(mantissa, exponent - 78));
    }
    let value = shifted_down(mantissa, 78 - exponent)?;
    Some(value % 360)
}

/// Quarter turns counterclockwise, beside whole turns: so many, or so many clockwise where `negative` says so.
fn turns_of(negative: bool, quarters: u8) -> u8
    requires { quarters < 4 }
    ensures { result ≡ (if negative then (4 - quarters) % 4 else quarters) }
{
    if negative {
        return (4 - quarters) % 4;
    }
    quarters
}
