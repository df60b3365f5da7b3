//! What is said of stitches: lines, or JSON.
use crate::json::line_of;
use dpl_base::Rect;
use dpl_cert::StitchLine;
use serde::{Described, Serialize, Serializer};
use std::alloc::{AllocError, Global};
use std::fmt::Write;

/// How long a stitch is, and how wide the shape is there: the side that is as long as the overlap, and the other side.
fn sides(rect: &Rect, overlap: u32) -> (i64, i64) {
    let across = i64::from(rect.x1) - i64::from(rect.x0);
    let up = i64::from(rect.y1) - i64::from(rect.y0);
    if across == i64::from(overlap) {
        (across, up)
    } else {
        (up, across)
    }
}

/// A line for each stitch, and a last one that counts them: `stitch N box X0 Y0 X1 Y1 length L width W pieces P Q`, with its rectangle, how long both masks overlap, how wide the shape is there, and the pieces on its two sides; `stitches S` at the end. All in database units.
pub fn stitch_lines(
    alloc: Global,
    stitches: &[StitchLine],
    overlap: u32,
) -> Result<String, AllocError> {
    let mut text = String::new(alloc);
    for (number, stitch) in stitches.iter().enumerate() {
        put_stitch(&mut text, number, stitch, overlap)?;
    }
    let count = stitches.len();
    write!(text, "stitches {count}\n")?;
    Ok(text)
}

/// Adds the line of one stitch.
fn put_stitch(
    text: &mut String,
    number: usize,
    stitch: &StitchLine,
    overlap: u32,
) -> Result<(), AllocError> {
    let r = &stitch.rect;
    let (length, width) = sides(r, overlap);
    write!(
        text,
        "stitch {number} box {} {} {} {} length {length} width {width} pieces {} {}\n",
        r.x0, r.y0, r.x1, r.y1, stitch.p, stitch.q
    )
}

/// All stitches as a JSON text of one line.
pub fn stitch_json(
    alloc: Global,
    stitches: &[StitchLine],
    overlap: u32,
) -> Result<String, AllocError> {
    let all = AllStitches {
        stitches: StitchList { stitches, overlap },
    };
    line_of(alloc, &all)
}

/// The line that says that a layer has no masks, as `dpl split` says it.
pub fn conflict_line(alloc: Global, pieces: u64) -> Result<String, AllocError> {
    format!(in alloc; "conflict cycle {pieces}\n")
}

/// That a layer has no masks, as a JSON text of one line.
pub fn no_masks_json(alloc: Global, pieces: u64) -> Result<String, AllocError> {
    line_of(alloc, &NoMasks { conflict: pieces })
}

/// All stitches, as JSON has them.
#[derive(Clone, Copy, Serialize)]
struct AllStitches<'a> {
    stitches: StitchList<'a>,
}

/// A stitch, as JSON has it.
#[derive(Clone, Copy, Serialize)]
struct Stitch {
    #[serde(rename = "box")]
    rect: [i32; 4],
    length: i64,
    pieces: [u64; 2],
    width: i64,
}

/// How many pieces the reported cycle has, as JSON has it.
#[derive(Clone, Copy, Serialize)]
struct NoMasks {
    conflict: u64,
}

/// Stitches, of which JSON has a list, and how long they are.
#[derive(Clone, Copy)]
struct StitchList<'a> {
    stitches: &'a [StitchLine],
    overlap: u32,
}

impl Described for StitchList<'_> {}

impl Serialize for StitchList<'_> {
    fn serialize<S: Serializer>(&self, out: &mut S) -> Result<(), S::Error> {
        out.begin_seq(Some(self.stitches.len()))?;
        for line in self.stitches {
            let r = &line.rect;
            let (length, width) = sides(r, self.overlap);
            let stitch = Stitch {
                rect: [r.x0, r.y0, r.x1, r.y1],
                length,
                pieces: [line.p, line.q],
                width,
            };
            stitch.serialize(out)?;
        }
        out.end_seq()
    }
}
