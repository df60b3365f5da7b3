//! Layers in texts: each line is a rectangle, x0, y0, x1 and y1, which single spaces part.

use dpl_test_sample::Rectangle;
use std::alloc::{AllocError, Global};

/// The number that a word is, if there is one and it is a number.
fn number(word: Option<&str>) -> Option<i32> {
    word?.parse::<i32>().ok()
}

/// The rectangle that a line is. None where it is anything but four numbers.
fn rectangle(line: &str) -> Option<Rectangle> {
    let mut words = line.split(' ');
    let x0 = number(words.next())?;
    let y0 = number(words.next())?;
    let x1 = number(words.next())?;
    let y1 = number(words.next())?;
    match words.next() {
        Some(_) => None,
        None => Some([x0, y0, x1, y1]),
    }
}

/// The rectangles of a text. None where a line isn't one.
pub fn rectangles(alloc: Global, text: &str) -> Result<Option<Vec<Rectangle>>, AllocError> {
    let mut all = Vec::new(alloc);
    for line in text.lines() {
        match rectangle(line) {
            Some(rectangle) => all.push(rectangle)?,
            None => return Ok(None),
        }
    }
    Ok(Some(all))
}
