//! The bytes of a made-up layout, by the GDSII Stream Format, Release 6.
ghost use Rattle.std.specs.Prelude.{◌≡◌, ◌<◌, ◌≤◌, ◌+◌, ◌*◌, ◌++◌, IfOk, OnOk, length};
ghost use Rattle.dpl_masks.specs.Bytes.{boundaries_bytes};
ghost use Rattle.dpl_demo.specs.Demo.{bar as bar_of, demo_file, row_bars};

use crate::numbers::{gap_of, next_number};
use dpl_base::Rect;
use dpl_masks::put_boundary;
use std::alloc::{AllocError, Global};

/// The records before the bars.
const OPENING: [u8; 98] = [
    0x00, 0x06, 0x00, 0x02, 0x02, 0x58, // HEADER
    0x00, 0x1C, 0x01, 0x02, 0, 0, 0, 0, 0, 0, 0, 0, 0, 0, 0, 0, 0, 0, 0, 0, 0, 0, 0, 0, 0, 0, 0, 0, // BGNLIB
    0x00, 0x08, 0x02, 0x06, b'L', b'I', b'B', 0, // LIBNAME
    0x00, 0x14, 0x03, 0x05, 0x3E, 0x41, 0x89, 0x37, 0x4B, 0xC6, 0xA7, 0xF0, 0x39, 0x44, 0xB8, 0x2F,
    0xA0, 0x9B, 0x5A, 0x54, // UNITS
    0x00, 0x1C, 0x05, 0x02, 0, 0, 0, 0, 0, 0, 0, 0, 0, 0, 0, 0, 0, 0, 0, 0, 0, 0, 0, 0, 0, 0, 0, 0, // BGNSTR
    0x00, 0x08, 0x06, 0x06, b'T', b'O', b'P', 0, // STRNAME
];

/// The records behind the bars.
const ENDSTR_ENDLIB: [u8; 8] = [0x00, 0x04, 0x07, 0x00, 0x00, 0x04, 0x04, 0x00];

/// The layer of a made-up layout.
const LAYER: u16 = 1;

/// How many columns a row has, its gap among them.
const WIDTH: u32 = 2_000;

/// How wide the gap of a row is.
const GAP: u32 = 100;

/// How high a bar is.
const HEIGHT: u32 = 20;

/// How far the bottom of a row is above that of the row below it.
const PITCH: u32 = 40;

/// A made-up layout: `rows` rows of two bars on layer 1, 20 high and 20 apart, in the columns 0 to 1999 with a gap of 100 that begins where the numbers behind `seed` say. The file has 106 bytes, and 128 for each row.
pub fn demo_bytes(alloc: Global, seed: u64, rows: u32) -> Result<Vec<u8>, AllocError>
    requires rows { (1 ≤ rows) × (rows ≤ 1000000) }
    ensures bytes { IfOk result (λ v. v.items ≡ demo_file seed rows) }
    ensures size { IfOk result (λ v. length v.items ≡ 106 + 128 * rows) }
{
    let mut out = Vec::with_capacity(alloc, 106 + 128 * rows as usize)?;
    out.extend_from_slice(&OPENING)?;
    let mut number = seed;
    for row in 0..rows {
        number = next_number(number);
        put_row(&mut out, row, gap_of(number))?;
    }
    out.extend_from_slice(&ENDSTR_ENDLIB)?;
    Ok(out)
}

/// Puts the bars on both sides of the gap of a row.
fn put_row(out: &mut Vec<u8>, row: u32, gap: u32) -> Result<(), AllocError>
    requires row { row < 1000000 }
    requires gap { (100 ≤ gap) × (gap < 1800) }
    ensures { OnOk result (out.new.items ≡ out.old.items ++ boundaries_bytes 1 (row_bars row gap)) }
{
    let left = bar(row, 0, gap);
    let right = bar(row, gap + GAP, WIDTH);
    put_boundary(out, LAYER, &left)?;
    put_boundary(out, LAYER, &right)
}

/// The bar of a row from the column `x0` up to but not `x1`.
fn bar(row: u32, x0: u32, x1: u32) -> Rect
    requires row { row < 1000000 }
    requires x0 { x0 ≤ 2000 }
    requires x1 { x1 ≤ 2000 }
    ensures { result ≡ bar_of row x0 x1 }
{
    let y0 = PITCH * row;
    Rect {
        x0: x0 as i32,
        y0: y0 as i32,
        x1: x1 as i32,
        y1: (y0 + HEIGHT) as i32,
    }
}
