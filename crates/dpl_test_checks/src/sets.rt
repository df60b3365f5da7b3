//! Sets of squares, and certificates, that are told by texts.
ghost use Rattle.std.specs.Prelude.{◌≤◌, ◌<ℤ◌, IsTrue, IfOk, IfSome, unsigned_abs};
ghost use Rattle.dpl_spec_split.specs.Loops.{farthest};
ghost use Rattle.dpl_cert.specs.Grammar.{IsCert};

use dpl_base::{FARTHEST, Rect};
use dpl_cert::Cert;
use dpl_parse::{CertFault, read_cert};
use dpl_slabs::Slabs;
use std::alloc::{AllocError, Global};

/// The corners of a rectangle: left, low, right, high.
type Corners = (i32, i32, i32, i32);

/// Whether the columns, or the rows, are some of a layer's.
fn is_span(low: i32, high: i32) -> bool
    ensures { IsTrue result → (low <ℤ high) × (unsigned_abs low ≤ farthest) × (unsigned_abs high ≤ farthest) }
{
    if low >= high {
        return false;
    }
    if (low as i64) < -FARTHEST {
        return false;
    }
    if high as i64 > FARTHEST {
        return false;
    }
    true
}

/// The squares of a rectangle. None where it has none, or isn't one of a layer.
fn one(alloc: Global, corners: Corners) -> Result<Option<Slabs>, AllocError> {
    let (x0, y0, x1, y1) = corners;
    if is_span(x0, x1) {
        if is_span(y0, y1) {
            return Ok(Some(Slabs::one(alloc, Rect { x0, y0, x1, y1 })?));
        }
    }
    Ok(None)
}

/// The number that a word is, if there is one and it is a number.
fn number(word: Option<&str>) -> Option<i32> {
    word?.parse::<i32>().ok()
}

/// The corners that a text has: four numbers, which spaces part. None where it has anything else.
fn corners_of(text: &str) -> Option<Corners> {
    let mut words = text.trim().split(' ');
    let x0 = number(words.next())?;
    let y0 = number(words.next())?;
    let x1 = number(words.next())?;
    let y1 = number(words.next())?;
    match words.next() {
        Some(_) => None,
        None => Some((x0, y0, x1, y1)),
    }
}

/// The squares of the rectangle that a text is, if it is one.
fn part_of(alloc: Global, text: &str) -> Result<Option<Slabs>, AllocError> {
    match corners_of(text) {
        Some(corners) => one(alloc, corners),
        None => Ok(None),
    }
}

/// The squares of the rectangles in a text, which commas part; an empty text has none. None where a part isn't a rectangle.
fn set_of(alloc: Global, text: &str) -> Result<Option<Slabs>, AllocError> {
    let mut set = Slabs::empty(alloc);
    if text.is_empty() {
        return Ok(Some(set));
    }
    for part in text.split(',') {
        let Some(next) = part_of(alloc, part)? else {
            return Ok(None);
        };
        set = set.union(alloc, &next)?;
    }
    Ok(Some(set))
}

/// The squares of each text. None where a text doesn't list rectangles.
pub fn sets_of(alloc: Global, texts: &[&str]) -> Result<Option<Vec<Slabs>>, AllocError> {
    let mut sets = Vec::new(alloc);
    for text in texts {
        let Some(set) = set_of(alloc, text)? else {
            return Ok(None);
        };
        sets.push(set)?;
    }
    Ok(Some(sets))
}

/// The certificate that a text is, if it is one.
pub fn cert_of(alloc: Global, text: &str) -> Result<Option<Cert>, AllocError>
    ensures { IfOk result (λ found. IfSome found (λ cert. IsCert cert)) }
{
    match read_cert(alloc, text.as_bytes()) {
        Ok(cert) => Ok(Some(cert)),
        Err(CertFault::BadLine { .. }) => Ok(None),
        Err(CertFault::NoMemory) => Err(AllocError),
    }
}
