//! Marker databases of KLayout's.
use crate::cycles::pieces_on;
use dpl_answer::Clash;
use dpl_base::{Pt, Rect};
use dpl_cert::{NearLine, StitchLine};
use dpl_view::{Cycles, top_name, unit_of};
use itoa::Buffer;
use std::alloc::{AllocError, Global};

/// What a marker database is about: its title, its category, and what a marker of that means.
#[derive(Clone, Copy)]
struct Subject {
    title: &'static str,
    category: &'static str,
    meaning: &'static str,
}

const CYCLES: Subject = Subject {
    title: "Odd cycles of conflicts",
    category: "cycle",
    meaning: "An odd cycle of conflicts: each piece must be on another mask than the next, the last than the first",
};

const STITCHES: Subject = Subject {
    title: "Stitches",
    category: "stitch",
    meaning: "Where both masks overlap",
};

/// A marker database with a marker for each cycle, in micrometres by the record UNITS of the layout. The marker has the cycle's number and how many pieces it has, and a closed line that goes across each pair of near squares and straight on to the next pair.
pub fn cycle_markers(alloc: Global, found: &Cycles) -> Result<Vec<u8>, AllocError> {
    let mut pen = Pen::new(alloc, &CYCLES, found.copied.as_slice())?;
    for (number, clash) in found.tangles.clashes.iter().enumerate() {
        pen.put_cycle(number as u64, clash)?;
    }
    pen.finished()
}

/// A marker database with a marker for each stitch, in micrometres by the record UNITS among the copied records of the layout.
pub fn stitch_markers(
    alloc: Global,
    copied: &[u8],
    stitches: &[StitchLine],
) -> Result<Vec<u8>, AllocError> {
    let mut pen = Pen::new(alloc, &STITCHES, copied)?;
    for stitch in stitches {
        pen.put_stitch(stitch)?;
    }
    pen.finished()
}

/// What stands before the items.
fn head(alloc: Global, subject: &Subject, cell: &str) -> Result<String, AllocError> {
    let (title, category, meaning) = (subject.title, subject.category, subject.meaning);
    format!(in alloc;
        "<?xml version=\"1.0\" encoding=\"utf-8\"?>
<report-database>
 <description>{title}</description>
 <generator>dplview</generator>
 <tags/>
 <categories>
  <category>
   <name>{category}</name>
   <description>{meaning}</description>
   <categories/>
  </category>
 </categories>
 <cells>
  <cell>
   <name>{cell}</name>
   <variant/>
   <references/>
  </cell>
 </cells>
 <items>
"
    )
}

/// A text as XML has it, with a question mark for what XML has no place for.
fn escaped(alloc: Global, text: &str) -> Result<String, AllocError> {
    let mut out = String::new(alloc);
    for c in text.chars() {
        match c {
            '&' => out.push_str("&amp;")?,
            '<' => out.push_str("&lt;")?,
            '>' => out.push_str("&gt;")?,
            c if c < ' ' => out.push_str("?")?,
            c => out.push(c)?,
        }
    }
    Ok(out)
}

/// What stands before the values of a marker.
fn front(alloc: Global, category: &str, cell: &str) -> Result<String, AllocError> {
    format!(in alloc; "<item><category>{category}</category><cell>{cell}</cell><values>")
}

/// How many millionths of a micrometre it has.
const MICROMETRE: u64 = 1_000_000;

/// How many digits stand behind the point at most.
const PLACES: u32 = 6;

/// What writes a marker database.
#[derive(Drop)]
struct Pen {
    /// What is written.
    out: Vec<u8>,
    /// What stands before the values of each marker.
    front: Vec<u8>,
    /// How many millionths of a micrometre a database unit has.
    unit: u64,
}

impl Pen {
    /// One that has written what stands before the items of a layout with these copied records.
    fn new(alloc: Global, subject: &Subject, copied: &[u8]) -> Result<Pen, AllocError> {
        let cell = escaped(alloc, top_name(copied))?;
        let head = head(alloc, subject, cell.as_str())?;
        let front = front(alloc, subject.category, cell.as_str())?;
        Ok(Pen {
            out: head.into_bytes(),
            front: front.into_bytes(),
            unit: unit_of(copied),
        })
    }

    /// The database, once all items are written.
    fn finished(mut self) -> Result<Vec<u8>, AllocError> {
        self.put(b" </items>\n</report-database>\n")?;
        Ok(self.out)
    }

    /// Adds the marker of a cycle. Its line goes to the marked squares of the pieces beside an anchor.
    fn put_cycle(&mut self, number: u64, clash: &Clash) -> Result<(), AllocError> {
        self.put_front()?;
        self.put(b"<value>text: 'cycle ")?;
        self.put_number(number)?;
        self.put(b": ")?;
        self.put_number(pieces_on(clash))?;
        self.put(b" pieces'</value><value>path: (")?;
        let mut begin = None;
        for near in clash.near.items() {
            if let Some((from, to)) = ends_of(near) {
                self.put_line(from, to)?;
                self.put(b";")?;
                begin = begin.or(Some(from));
            }
        }
        // back to where it began
        if let Some(from) = begin {
            self.put_point(from)?;
        }
        self.put(b") w=0 bx=0 ex=0 r=false</value>")?;
        self.put_back()
    }

    /// Adds the marker of a stitch.
    fn put_stitch(&mut self, stitch: &StitchLine) -> Result<(), AllocError> {
        let r = &stitch.rect;
        let low = point(r.x0, r.y0);
        let high = point(r.x1, r.y1);
        self.put_front()?;
        self.put(b"<value>text: 'stitch between the pieces ")?;
        self.put_number(stitch.p)?;
        self.put(b" and ")?;
        self.put_number(stitch.q)?;
        self.put(b"'</value><value>box: (")?;
        self.put_line(low, high)?;
        self.put(b")</value>")?;
        self.put_back()
    }

    /// Adds what stands before the values of a marker.
    fn put_front(&mut self) -> Result<(), AllocError> {
        self.out.extend_from_slice(self.front.as_slice())
    }

    /// Adds what stands behind the values of a marker.
    fn put_back(&mut self) -> Result<(), AllocError> {
        self.put(b"</values></item>\n")
    }

    /// Adds both ends of a line.
    fn put_line(&mut self, from: Pt, to: Pt) -> Result<(), AllocError> {
        self.put_point(from)?;
        self.put(b";")?;
        self.put_point(to)
    }

    /// Adds a point in micrometres.
    fn put_point(&mut self, p: Pt) -> Result<(), AllocError> {
        self.put_length(p.x)?;
        self.put(b",")?;
        self.put_length(p.y)
    }

    /// Adds a coordinate in micrometres, without zeros at its end. A coordinate has at most 32 bits, and a unit at most 32, so nothing saturates.
    fn put_length(&mut self, value: i64) -> Result<(), AllocError> {
        let all = value.unsigned_abs().saturating_mul(self.unit);
        if value < 0 {
            self.put(b"-")?;
        }
        self.put_number(all / MICROMETRE)?;
        let mut rest = all % MICROMETRE;
        if rest > 0 {
            self.put(b".")?;
        }
        for _ in 0..PLACES {
            if rest == 0 {
                break;
            }
            let tenfold = rest % MICROMETRE * 10;
            self.out.push(b'0' + (tenfold / MICROMETRE % 10) as u8)?;
            rest = tenfold % MICROMETRE;
        }
        Ok(())
    }

    /// Adds a number.
    fn put_number(&mut self, number: u64) -> Result<(), AllocError> {
        let mut buffer = Buffer::new();
        self.put(buffer.format(number).as_bytes())
    }

    /// Adds some bytes.
    fn put(&mut self, bytes: &[u8]) -> Result<(), AllocError> {
        self.out.extend_from_slice(bytes)
    }
}

/// A point of these coordinates.
fn point(x: i32, y: i32) -> Pt {
    Pt {
        x: i64::from(x),
        y: i64::from(y),
    }
}

/// Where a marker's line goes between two places of a cycle, if squares are named there.
fn ends_of(near: &NearLine) -> Option<(Pt, Pt)> {
    match near {
        NearLine::Pair { from, to } => Some(between(from, to)),
        NearLine::Mark { at } => Some((*at, *at)),
        NearLine::Anchors => None,
    }
}

/// The shortest line between two near squares.
fn between(from: &Pt, to: &Pt) -> (Pt, Pt) {
    let (x0, x1) = ends(from.x, to.x);
    let (y0, y1) = ends(from.y, to.y);
    (Pt { x: x0, y: y0 }, Pt { x: x1, y: y1 })
}

/// Where the shortest line between two unit squares ends, along one axis.
fn ends(a: i64, b: i64) -> (i64, i64) {
    if a < b {
        (a.saturating_add(1), b)
    } else if b < a {
        (a, b.saturating_add(1))
    } else {
        (a, b)
    }
}
