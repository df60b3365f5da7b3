//! What is said of odd cycles: lines, or JSON.
use crate::json::line_of;
use dpl_answer::Clash;
use dpl_base::Pt;
use dpl_cert::{Name, NearLine, PlaceLine};
use dpl_view::Tangles;
use itoa::{Buffer, Integer};
use serde::{Described, Serialize, Serializer};
use std::alloc::{AllocError, Global};
use std::fmt::Write;

/// The least rectangle that has some points: its least and greatest columns and rows.
#[derive(Clone, Copy)]
struct Bounds {
    x0: i64,
    y0: i64,
    x1: i64,
    y1: i64,
}

impl Bounds {
    fn with(self, p: &Pt) -> Bounds {
        Bounds {
            x0: self.x0.min(p.x),
            y0: self.y0.min(p.y),
            x1: self.x1.max(p.x.saturating_add(1)),
            y1: self.y1.max(p.y.saturating_add(1)),
        }
    }
}

/// The least rectangle that has the listed squares of a cycle.
fn bounds_of(clash: &Clash) -> Bounds {
    let mut bounds = Bounds {
        x0: i64::MAX,
        y0: i64::MAX,
        x1: i64::MIN,
        y1: i64::MIN,
    };
    for place in clash.cycle.items() {
        if let PlaceLine::Piece { key, .. } = place {
            bounds = bounds.with(key);
        }
    }
    for near in clash.near.items() {
        bounds = match near {
            NearLine::Pair { from, to } => bounds.with(from).with(to),
            NearLine::Mark { at } => bounds.with(at),
            NearLine::Anchors => bounds,
        };
    }
    bounds
}

/// How many pieces lie on a cycle, beside anchors.
pub(crate) fn pieces_on(clash: &Clash) -> u64 {
    let mut count: u64 = 0;
    for place in clash.cycle.items() {
        if let PlaceLine::Piece { .. } = place {
            count = count.saturating_add(1);
        }
    }
    count
}

/// How many pieces lie on the cycles.
fn piece_count(clashes: &[Clash]) -> u64 {
    let mut count: u64 = 0;
    for clash in clashes {
        count = count.saturating_add(pieces_on(clash));
    }
    count
}

/// The mask of an anchor.
fn mask_name(b: bool) -> &'static str {
    if b { "B" } else { "A" }
}

/// The lines of all cycles, and a last one that counts them: `cycle N pieces P box X0 Y0 X1 Y1`, then a line `piece N X Y` for each piece with its least square and a line `near X Y X Y` for each with the first pair of squares of it and the next one that are closer than the rule; `conflicts cycles C pieces P edges E` at the end: E conflicts lie in the components of the cycles. All in database units.
pub fn conflict_lines(alloc: Global, tangles: &Tangles) -> Result<String, AllocError> {
    let clashes = tangles.clashes.as_slice();
    let mut text = String::new(alloc);
    for (number, clash) in clashes.iter().enumerate() {
        put_cycle(&mut text, number, clash)?;
    }
    let (cycles, pieces, edges) = (clashes.len(), piece_count(clashes), tangles.edges);
    write!(
        text,
        "conflicts cycles {cycles} pieces {pieces} edges {edges}\n"
    )?;
    Ok(text)
}

/// Adds the lines of one cycle. Anchors, which a layout that is looked at without marks has none of, have the lines that a certificate has for them.
fn put_cycle(text: &mut String, number: usize, clash: &Clash) -> Result<(), AllocError> {
    let b = bounds_of(clash);
    text.push_str("cycle ")?;
    put_number(text, number)?;
    text.push_str(" pieces ")?;
    put_number(text, pieces_on(clash))?;
    text.push_str(" box")?;
    put_numbers(text, &[b.x0, b.y0, b.x1, b.y1])?;
    for place in clash.cycle.items() {
        put_place(text, place)?;
    }
    for near in clash.near.items() {
        put_near(text, near)?;
    }
    Ok(())
}

/// Adds the line of a piece or an anchor.
fn put_place(text: &mut String, place: &PlaceLine) -> Result<(), AllocError> {
    match place {
        PlaceLine::Piece { piece, key } => {
            text.push_str("piece ")?;
            put_number(text, *piece)?;
            put_numbers(text, &[key.x, key.y])
        }
        PlaceLine::Anchor { b } => {
            text.push_str("anchor ")?;
            text.push_str(mask_name(*b))?;
            text.push_str("\n")
        }
    }
}

/// Adds the line of what joins a place of a cycle and the next one.
fn put_near(text: &mut String, near: &NearLine) -> Result<(), AllocError> {
    match near {
        NearLine::Pair { from, to } => {
            text.push_str("near")?;
            put_numbers(text, &[from.x, from.y, to.x, to.y])
        }
        NearLine::Mark { at } => {
            text.push_str("marked")?;
            put_numbers(text, &[at.x, at.y])
        }
        NearLine::Anchors => text.push_str("anchors\n"),
    }
}

/// Adds a number.
fn put_number<T: Integer>(text: &mut String, number: T) -> Result<(), AllocError> {
    let mut buffer = Buffer::new();
    text.push_str(buffer.format(number))
}

/// Adds numbers, a space before each, to the end of a line.
fn put_numbers(text: &mut String, numbers: &[i64]) -> Result<(), AllocError> {
    for number in numbers {
        text.push_str(" ")?;
        put_number(text, *number)?;
    }
    text.push_str("\n")
}

/// The line that tells the first fault of a layout, as `dpl split` says it.
pub fn refused_line(alloc: Global, name: Name, at: u64) -> Result<String, AllocError> {
    format!(in alloc; "refused {name} {at}\n")
}

/// All cycles as a JSON text of one line.
pub fn conflict_json(alloc: Global, tangles: &Tangles) -> Result<String, AllocError> {
    let clashes = tangles.clashes.as_slice();
    let all = AllCycles {
        cycles: CycleList(clashes),
        edges: tangles.edges,
        pieces: piece_count(clashes),
    };
    line_of(alloc, &all)
}

/// All cycles, as JSON has them.
#[derive(Clone, Copy, Serialize)]
struct AllCycles<'a> {
    cycles: CycleList<'a>,
    edges: u64,
    pieces: u64,
}

/// A cycle, as JSON has it.
#[derive(Clone, Copy, Serialize)]
struct Cycle<'a> {
    #[serde(rename = "box")]
    bounds: [i64; 4],
    near: NearList<'a>,
    pieces: PlaceList<'a>,
}

/// A piece, as JSON has it.
#[derive(Clone, Copy, Serialize)]
struct Place {
    piece: u64,
    x: i64,
    y: i64,
}

/// An anchor, as JSON has it.
#[derive(Clone, Copy, Serialize)]
struct Anchor {
    anchor: &'static str,
}

/// Cycles, of which JSON has a list.
#[derive(Clone, Copy)]
struct CycleList<'a>(&'a [Clash]);

/// What joins the places of a cycle, of which JSON has a list: both near squares, or one that is marked, or none between anchors.
#[derive(Clone, Copy)]
struct NearList<'a>(&'a [NearLine]);

/// Pieces and anchors, of which JSON has a list.
#[derive(Clone, Copy)]
struct PlaceList<'a>(&'a [PlaceLine]);

impl Described for CycleList<'_> {}

impl Serialize for CycleList<'_> {
    fn serialize<S: Serializer>(&self, out: &mut S) -> Result<(), S::Error> {
        out.begin_seq(Some(self.0.len()))?;
        for clash in self.0 {
            let b = bounds_of(clash);
            let cycle = Cycle {
                bounds: [b.x0, b.y0, b.x1, b.y1],
                near: NearList(clash.near.items()),
                pieces: PlaceList(clash.cycle.items()),
            };
            cycle.serialize(out)?;
        }
        out.end_seq()
    }
}

impl Described for NearList<'_> {}

impl Serialize for NearList<'_> {
    fn serialize<S: Serializer>(&self, out: &mut S) -> Result<(), S::Error> {
        out.begin_seq(Some(self.0.len()))?;
        for near in self.0 {
            match near {
                NearLine::Pair { from, to } => {
                    let pair = [[from.x, from.y], [to.x, to.y]];
                    pair.serialize(out)?;
                }
                NearLine::Mark { at } => {
                    let mark = [[at.x, at.y]];
                    mark.serialize(out)?;
                }
                NearLine::Anchors => {
                    out.begin_seq(Some(0))?;
                    out.end_seq()?;
                }
            }
        }
        out.end_seq()
    }
}

impl Described for PlaceList<'_> {}

impl Serialize for PlaceList<'_> {
    fn serialize<S: Serializer>(&self, out: &mut S) -> Result<(), S::Error> {
        out.begin_seq(Some(self.0.len()))?;
        for line in self.0 {
            match line {
                PlaceLine::Piece { piece, key } => {
                    let place = Place {
                        piece: *piece,
                        x: key.x,
                        y: key.y,
                    };
                    place.serialize(out)?;
                }
                PlaceLine::Anchor { b } => {
                    let anchor = Anchor {
                        anchor: mask_name(*b),
                    };
                    anchor.serialize(out)?;
                }
            }
        }
        out.end_seq()
    }
}
