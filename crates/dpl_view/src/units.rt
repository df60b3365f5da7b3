//! What the records before the elements tell: the units of a layout, and the name of its top structure.
use dpl_records::{name_of, next_record};
use std::alloc::{AllocError, Global};
use std::num::nearest_u64_to_f64;
use std::str;

/// The record types UNITS and STRNAME.
const UNITS: u8 = 0x03;

const STRNAME: u8 = 0x06;

/// Millionths of a micrometre to a database unit, where a layout tells none that fits.
const USUAL: u64 = 1_000;

/// The body of the first record of a kind among the copied records, if there is one.
fn body_of(copied: &[u8], kind: u8) -> Option<&[u8]> {
    let mut at = 0;
    while at < copied.len() {
        let record = next_record(copied, at).ok()?;
        if record.kind == kind {
            return Some(record.body);
        }
        at = record.next;
    }
    None
}

/// The name of the top structure among the copied records.
pub fn top_name(copied: &[u8]) -> &str {
    match body_of(copied, STRNAME) {
        Some(body) => str::from_utf8(name_of(body)).unwrap_or("TOP"),
        None => "TOP",
    }
}

/// The name in a whole record, with a question mark for each byte that is no printable character of ASCII.
pub(crate) fn name_in(alloc: Global, record: &[u8]) -> Result<String, AllocError> {
    let mut name = String::new(alloc);
    if let Ok(record) = next_record(record, 0) {
        for byte in name_of(record.body) {
            if byte.is_ascii_graphic() {
                name.push(char::from(*byte))?;
            } else {
                name.push('?')?;
            }
        }
    }
    Ok(name)
}

/// The two reals of the record UNITS of a file: a database unit in user units, and in metres; 0 where there is none.
pub(crate) fn units_in(bytes: &[u8]) -> (f64, f64) {
    let Some(body) = body_of(bytes, UNITS) else {
        return (0.0, 0.0);
    };
    match (body.get(0..8), body.get(8..16)) {
        (Some(user), Some(metres)) => (float_of(user), float_of(metres)),
        _ => (0.0, 0.0),
    }
}

/// The nearest `f64` to an eight-byte real: a sign, seven bits of an exponent of 16, and seven bytes behind the point.
fn float_of(real: &[u8]) -> f64 {
    let Some((head, rest)) = real.split_first() else {
        return 0.0;
    };
    let mut mantissa: u64 = 0;
    for byte in rest {
        mantissa = (mantissa % (1 << 48)) * 256 + u64::from(*byte);
    }
    // 14 hexadecimal digits stand behind the point
    let mut value = nearest_u64_to_f64(mantissa);
    let exponent = i32::from(*head % 128) - 64 - 14;
    for _ in 0..exponent.unsigned_abs() {
        if exponent < 0 {
            value /= 16.0;
        } else {
            value *= 16.0;
        }
    }
    if *head < 128 { value } else { -value }
}

/// How many millionths of a micrometre a database unit has, by the record UNITS, to the nearest whole number.
pub fn unit_of(copied: &[u8]) -> u64 {
    let Some(body) = body_of(copied, UNITS) else {
        return USUAL;
    };
    let Some(real) = body.get(8..16) else {
        return USUAL;
    };
    let unit = millionths(real);
    if unit == 0 || unit > u64::from(u32::MAX) {
        return USUAL;
    }
    unit
}

/// An eight-byte real of metres in millionths of a micrometre; 0 where that is no such number.
fn millionths(real: &[u8]) -> u64 {
    let Some((head, rest)) = real.split_first() else {
        return 0;
    };
    let mut mantissa: u64 = 0;
    for byte in rest {
        mantissa = (mantissa % (1 << 48)) * 256 + u64::from(*byte);
    }
    let sixteenths = i32::from(*head % 128) - 64;
    let down = 56 - 4 * sixteenths;
    if down < 1 || down > 127 {
        return 0;
    }
    let scaled = u128::from(mantissa) * 1_000_000_000_000;
    let rounded = ((scaled >> (down - 1)) + 1) >> 1;
    u64::try_from(rounded).unwrap_or(0)
}
