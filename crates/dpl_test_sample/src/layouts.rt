//! Layouts from a list of their parts.

use std::alloc::{AllocError, Global};

/// The records before the first structure, 62 bytes.
const LIBRARY: [u8; 62] = [
    0, 6, 0, 2, 2, 88, // HEADER
    0, 28, 1, 2, 0, 0, 0, 0, 0, 0, 0, 0, 0, 0, 0, 0, 0, 0, 0, 0, 0, 0, 0, 0, 0, 0, 0, 0, // BGNLIB
    0, 8, 2, 6, 76, 73, 66, 0, // LIBNAME
    0, 20, 3, 5, 62, 65, 137, 55, 75, 198, 167, 240, 57, 68, 184, 47, 160, 155, 90, 84, // UNITS
];

/// A rectangle `[x0,x1)*[y0,y1)`: x0, y0, x1, y1.
pub type Rectangle = [i32; 4];

/// A part of a layout.
#[derive(Clone, Copy, Debug)]
pub enum Part<'a> {
    /// A record as it is given: its type, its data type and its data, of fewer than 65,532 bytes.
    Record(u8, u8, &'a [u8]),
    /// A record of four-byte numbers: its type and the numbers.
    Numbers(u8, &'a [i32]),
    /// The boundary of a rectangle on a layer below 256, datatype 0. It has 64 bytes.
    Bar(u8, Rectangle),
    /// The first two records of a structure: its name, padded to an even number of bytes.
    Begin(&'a [u8]),
    /// The last record of a structure.
    End,
}

/// Puts a record.
fn put(out: &mut Vec<u8>, kind: u8, form: u8, data: &[u8]) -> Result<(), AllocError> {
    let length = u16::try_from(data.len().saturating_add(4)).unwrap_or(u16::MAX);
    out.extend_from_slice(&length.to_be_bytes())?;
    out.extend_from_slice(&[kind, form])?;
    out.extend_from_slice(data)
}

/// Puts a record of four-byte numbers.
fn put_numbers(out: &mut Vec<u8>, kind: u8, numbers: &[i32]) -> Result<(), AllocError> {
    let size = numbers.len().saturating_mul(4).saturating_add(4);
    let length = u16::try_from(size).unwrap_or(u16::MAX);
    out.extend_from_slice(&length.to_be_bytes())?;
    out.extend_from_slice(&[kind, 3])?;
    for number in numbers {
        out.extend_from_slice(&number.to_be_bytes())?;
    }
    Ok(())
}

/// Puts the boundary of a rectangle.
fn put_bar(out: &mut Vec<u8>, layer: u8, bar: Rectangle) -> Result<(), AllocError> {
    let [x0, y0, x1, y1] = bar;
    put(out, 8, 0, &[])?;
    put(out, 13, 2, &[0, layer])?;
    put(out, 14, 2, &[0, 0])?;
    put_numbers(out, 16, &[x0, y0, x1, y0, x1, y1, x0, y1, x0, y0])?;
    put(out, 17, 0, &[])
}

/// Puts a part.
fn put_part(out: &mut Vec<u8>, part: Part<'_>) -> Result<(), AllocError> {
    match part {
        Part::Record(kind, form, data) => put(out, kind, form, data),
        Part::Numbers(kind, numbers) => put_numbers(out, kind, numbers),
        Part::Bar(layer, bar) => put_bar(out, layer, bar),
        Part::Begin(name) => {
            put(out, 5, 2, &[0; 24])?;
            put(out, 6, 6, name)
        }
        Part::End => put(out, 7, 0, &[]),
    }
}

/// The records before the first structure.
pub fn library(alloc: Global) -> Result<Vec<u8>, AllocError> {
    Vec::from_slice(alloc, &LIBRARY)
}

/// Puts parts, one after the other.
pub fn put_parts(out: &mut Vec<u8>, parts: &[Part<'_>]) -> Result<(), AllocError> {
    for part in parts {
        put_part(out, *part)?;
    }
    Ok(())
}

/// Puts ENDLIB.
pub fn finish(out: &mut Vec<u8>) -> Result<(), AllocError> {
    put(out, 4, 0, &[])
}

/// The file with these lists of parts between the first records and ENDLIB. The first part is at offset 62.
pub fn layout(alloc: Global, lists: &[&[Part<'_>]]) -> Result<Vec<u8>, AllocError> {
    let mut out = library(alloc)?;
    for parts in lists {
        put_parts(&mut out, parts)?;
    }
    finish(&mut out)?;
    Ok(out)
}

/// Puts the boundaries of rectangles.
fn put_bars(out: &mut Vec<u8>, layer: u8, bars: &[Rectangle]) -> Result<(), AllocError> {
    for bar in bars {
        put_bar(out, layer, *bar)?;
    }
    Ok(())
}

/// The file whose one structure, TOP, has rectangles of two layers, the first of them at offset 98.
fn top(
    alloc: Global,
    first: (u8, &[Rectangle]),
    second: (u8, &[Rectangle]),
) -> Result<Vec<u8>, AllocError> {
    let mut out = library(alloc)?;
    put_part(&mut out, Part::Begin(b"TOP\0"))?;
    put_bars(&mut out, first.0, first.1)?;
    put_bars(&mut out, second.0, second.1)?;
    put_part(&mut out, Part::End)?;
    finish(&mut out)?;
    Ok(out)
}

/// The file of these rectangles on layer 1, in the structure TOP.
pub fn bars(alloc: Global, bars: &[Rectangle]) -> Result<Vec<u8>, AllocError> {
    top(alloc, (1, bars), (1, &[]))
}

/// The file of two masks, on layers 101 and 102, in the structure TOP.
pub fn masks(alloc: Global, a: &[Rectangle], b: &[Rectangle]) -> Result<Vec<u8>, AllocError> {
    top(alloc, (101, a), (102, b))
}
