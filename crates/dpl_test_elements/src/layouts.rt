//! Layouts in texts.
//!
//! `begin NAME` and `end` stand for the first and the last records of a structure, and `bar` with a rectangle for the boundary of it on layer 1. `chain COUNT` stands for as many structures: all but the last have the records behind it, parted by commas, where `next` between two of them stands for the name of the next structure, and the last is only begun. Any other line stands for a record: its name in capitals, its type, its data type, and its data. Data of type 3 are numbers of four bytes, those of type 6 a text, and others bytes.
//!
//! A text with a line of another form has no layout: what reads such a line gives `None`, or `false`.

use dpl_test_sample::{Part, finish, library, put_parts};
use std::alloc::{AllocError, Global};

/// The numbers that the words of a text are.
pub fn numbers(alloc: Global, text: &str) -> Result<Option<Vec<i32>>, AllocError> {
    let mut numbers = Vec::new(alloc);
    for word in text.split_whitespace() {
        let Ok(number) = word.parse::<i32>() else {
            return Ok(None);
        };
        numbers.push(number)?;
    }
    Ok(Some(numbers))
}

/// The bytes that the words of a text are.
fn bytes(alloc: Global, text: &str) -> Result<Option<Vec<u8>>, AllocError> {
    let mut bytes = Vec::new(alloc);
    for word in text.split_whitespace() {
        let Ok(byte) = word.parse::<u8>() else {
            return Ok(None);
        };
        bytes.push(byte)?;
    }
    Ok(Some(bytes))
}

/// Puts a part, which is always of the right form.
fn put(out: &mut Vec<u8>, part: Part<'_>) -> Result<bool, AllocError> {
    put_parts(out, &[part])?;
    Ok(true)
}

/// Puts the boundary of a rectangle: x0, y0, x1, y1.
fn put_bar(alloc: Global, out: &mut Vec<u8>, corners: &str) -> Result<bool, AllocError> {
    let Some(numbers) = numbers(alloc, corners)? else {
        return Ok(false);
    };
    match *numbers.as_slice() {
        [x0, y0, x1, y1] => put(out, Part::Bar(1, [x0, y0, x1, y1])),
        _ => Ok(false),
    }
}

/// Puts a record of this type, of four-byte numbers in a text.
fn put_numbers(alloc: Global, out: &mut Vec<u8>, kind: u8, text: &str) -> Result<bool, AllocError> {
    match numbers(alloc, text)? {
        Some(numbers) => put(out, Part::Numbers(kind, numbers.as_slice())),
        None => Ok(false),
    }
}

/// Puts a record of this type and this data type, of bytes in a text.
fn put_bytes(
    alloc: Global,
    out: &mut Vec<u8>,
    kind: u8,
    form: u8,
    text: &str,
) -> Result<bool, AllocError> {
    match bytes(alloc, text)? {
        Some(bytes) => put(out, Part::Record(kind, form, bytes.as_slice())),
        None => Ok(false),
    }
}

/// Puts a record of this type and of the data type and the data in a text.
fn put_data(alloc: Global, out: &mut Vec<u8>, kind: u8, text: &str) -> Result<bool, AllocError> {
    let (form, data) = text.split_once(' ').unwrap_or((text, ""));
    match form.parse::<u8>() {
        Ok(3) => put_numbers(alloc, out, kind, data),
        Ok(6) => put(out, Part::Record(kind, 6, data.as_bytes())),
        Ok(form) => put_bytes(alloc, out, kind, form, data),
        Err(_) => Ok(false),
    }
}

/// Puts the record whose type, data type and data are in a text.
fn put_typed(alloc: Global, out: &mut Vec<u8>, text: &str) -> Result<bool, AllocError> {
    let Some((kind, rest)) = text.split_once(' ') else {
        return Ok(false);
    };
    match kind.parse::<u8>() {
        Ok(kind) => put_data(alloc, out, kind, rest),
        Err(_) => Ok(false),
    }
}

/// Whether a name has capitals alone.
fn is_in_capitals(name: &str) -> bool {
    for byte in name.as_bytes() {
        if !byte.is_ascii_uppercase() {
            return false;
        }
    }
    !name.is_empty()
}

/// Puts the record that a text has behind a name in capitals.
fn put_record(alloc: Global, out: &mut Vec<u8>, text: &str) -> Result<bool, AllocError> {
    match text.split_once(' ') {
        Some((name, rest)) if is_in_capitals(name) => put_typed(alloc, out, rest),
        _ => Ok(false),
    }
}

/// One of 32 letters, of which none is 0.
fn letter(number: u32) -> u8 {
    64 + (number % 32) as u8
}

/// A name of four letters for each number.
fn name_of(number: u32) -> [u8; 4] {
    [
        letter(number / 32_768),
        letter(number / 1024),
        letter(number / 32),
        letter(number),
    ]
}

/// The bytes of records in a text, which commas part.
fn records_of(alloc: Global, text: &str) -> Result<Option<Vec<u8>>, AllocError> {
    let mut out = Vec::new(alloc);
    for record in text.split(", ") {
        if !put_record(alloc, &mut out, record)? {
            return Ok(None);
        }
    }
    Ok(Some(out))
}

/// The bytes of the records before and behind each `next` in a text.
fn pieces_of(alloc: Global, text: &str) -> Result<Option<Vec<Vec<u8>>>, AllocError> {
    let mut pieces = Vec::new(alloc);
    for part in text.split(", next, ") {
        let Some(piece) = records_of(alloc, part)? else {
            return Ok(None);
        };
        pieces.push(piece)?;
    }
    Ok(Some(pieces))
}

/// Puts the structure of this number in a chain: these records, and between them the name of the next structure.
fn put_level(out: &mut Vec<u8>, level: u32, pieces: &[Vec<u8>]) -> Result<(), AllocError> {
    put_parts(out, &[Part::Begin(&name_of(level))])?;
    for (number, piece) in pieces.iter().enumerate() {
        if number > 0 {
            put_parts(
                out,
                &[Part::Record(18, 6, &name_of(level.saturating_add(1)))],
            )?;
        }
        out.extend_from_slice(piece.as_slice())?;
    }
    put_parts(out, &[Part::End])
}

/// Puts a chain of as many structures: these records of each but the last, which is only begun.
fn put_levels(
    alloc: Global,
    out: &mut Vec<u8>,
    count: u32,
    records: &str,
) -> Result<bool, AllocError> {
    let Some(pieces) = pieces_of(alloc, records)? else {
        return Ok(false);
    };
    for level in 1..count {
        put_level(out, level, pieces.as_slice())?;
    }
    put(out, Part::Begin(&name_of(count)))
}

/// Puts a chain of structures: how many there are, at least one, and the records.
fn put_chain(alloc: Global, out: &mut Vec<u8>, chain: &str) -> Result<bool, AllocError> {
    let Some((count, records)) = chain.split_once(' ') else {
        return Ok(false);
    };
    match count.parse::<u32>() {
        Ok(0) | Err(_) => Ok(false),
        Ok(count) => put_levels(alloc, out, count, records),
    }
}

/// Puts what a line of more than one word stands for.
fn put_words(alloc: Global, out: &mut Vec<u8>, line: &str) -> Result<bool, AllocError> {
    match line.split_once(' ') {
        Some(("begin", name)) => put(out, Part::Begin(name.as_bytes())),
        Some(("bar", corners)) => put_bar(alloc, out, corners),
        Some(("chain", chain)) => put_chain(alloc, out, chain),
        _ => put_record(alloc, out, line),
    }
}

/// Puts what a line stands for.
fn put_line(alloc: Global, out: &mut Vec<u8>, line: &str) -> Result<bool, AllocError> {
    if line == "end" {
        put(out, Part::End)
    } else {
        put_words(alloc, out, line)
    }
}

/// The file of a layout.
pub fn file_of(alloc: Global, layout: &str) -> Result<Option<Vec<u8>>, AllocError> {
    let mut out = library(alloc)?;
    for line in layout.lines() {
        if !put_line(alloc, &mut out, line)? {
            return Ok(None);
        }
    }
    finish(&mut out)?;
    Ok(Some(out))
}
