//! The shapes of boundaries and a path behind a reference, and their loops.
use dpl_base::{Loop, Pt, Rect};
use dpl_flatten::{Layer, flatten, shapes_of, top_of};
use dpl_syntax::{Library, read_library};
use dpl_test_sample::{Part, layout};
use std::alloc::Global;
use std::test::Fail;

/// A rectangle of 20 by 10, a corner below it, and a path of width 4 and length 40 above it.
static SUB: [Part<'static>; 14] = [
    Part::Begin(b"SUB\0"),
    Part::Bar(1, [0, 0, 20, 10]),
    Part::Record(8, 0, &[]),
    Part::Record(13, 2, &[0, 1]),
    Part::Record(14, 2, &[0, 0]),
    Part::Numbers(
        16,
        &[0, -20, 20, -20, 20, -10, 10, -10, 10, -5, 0, -5, 0, -20],
    ),
    Part::Record(17, 0, &[]),
    Part::Record(9, 0, &[]),
    Part::Record(13, 2, &[0, 1]),
    Part::Record(14, 2, &[0, 0]),
    Part::Numbers(15, &[4]),
    Part::Numbers(16, &[0, 30, 40, 30]),
    Part::Record(17, 0, &[]),
    Part::End,
];

/// A copy of it that makes a quarter turn, and then moves by (100,200).
static TOP: [Part<'static>; 8] = [
    Part::Begin(b"TOP\0"),
    Part::Record(10, 0, &[]),
    Part::Record(18, 6, b"SUB\0"),
    Part::Record(26, 1, &[0, 0]),
    Part::Record(28, 5, &[0x42, 0x5A, 0, 0, 0, 0, 0, 0]),
    Part::Numbers(16, &[100, 200]),
    Part::Record(17, 0, &[]),
    Part::End,
];

const BOUNDARY: Rect = Rect {
    x0: 90,
    y0: 200,
    x1: 100,
    y1: 220,
};

/// The corner, with its first point once more at its end.
const CORNER: [Pt; 7] = [
    Pt { x: 120, y: 200 },
    Pt { x: 120, y: 220 },
    Pt { x: 110, y: 220 },
    Pt { x: 110, y: 210 },
    Pt { x: 105, y: 210 },
    Pt { x: 105, y: 200 },
    Pt { x: 120, y: 200 },
];

const PATH: Rect = Rect {
    x0: 68,
    y0: 200,
    x1: 72,
    y1: 240,
};

const AROUND_BOUNDARY: [Pt; 4] = [
    Pt { x: 90, y: 200 },
    Pt { x: 100, y: 200 },
    Pt { x: 100, y: 220 },
    Pt { x: 90, y: 220 },
];

const AROUND_PATH: [Pt; 4] = [
    Pt { x: 68, y: 200 },
    Pt { x: 72, y: 200 },
    Pt { x: 72, y: 240 },
    Pt { x: 68, y: 240 },
];

/// The layer that is drawn on.
const DRAWN: Layer = Layer {
    layer: 1,
    datatype: 0,
};

const EMPTY: Layer = Layer {
    layer: 2,
    datatype: 0,
};

/// The rectangles of the layer.
static RECTS: [Rect; 2] = [BOUNDARY, PATH];

/// Its loops, where rectangles are loops too.
static LOOPS: [&[Pt]; 3] = [&CORNER, &AROUND_BOUNDARY, &AROUND_PATH];

/// Whether loops go through these points.
fn are_through(loops: &[Loop], want: &[&[Pt]]) -> bool {
    loops.len() == want.len() && loops.iter().zip(want).all(|(l, w)| l.items() == *w)
}

/// Whether a layer has just these rectangles, and just these loops.
fn has_shapes(
    alloc: Global,
    library: &Library<'_>,
    layer: Layer,
    rects: &[Rect],
    loops: &[&[Pt]],
) -> bool {
    let Ok(top) = top_of(alloc, library, None) else {
        return false;
    };
    match shapes_of(alloc, library, top, layer) {
        Ok(shapes) => shapes.rects.as_slice() == rects && are_through(&shapes.loops, loops),
        Err(_) => false,
    }
}

#[test]
fn shapes_behind_a_reference(rt: HostRuntime) -> Result<(), Fail> {
    let bytes = layout(rt.alloc(), &[&SUB, &TOP])?;
    assert!(rt; bytes.len() <= 268_435_456);
    let library = read_library(rt.alloc(), &bytes)?;
    assert!(rt; has_shapes(rt.alloc(), &library, DRAWN, &RECTS, &LOOPS[..1]));
    assert!(rt; has_shapes(rt.alloc(), &library, EMPTY, &[], &[]));
    Ok(())
}

/// Whether a layer has just these loops.
fn has_loops(alloc: Global, library: &Library<'_>, layer: Layer, loops: &[&[Pt]]) -> bool {
    let Ok(top) = top_of(alloc, library, None) else {
        return false;
    };
    match flatten(alloc, library, top, layer) {
        Ok(found) => are_through(&found, loops),
        Err(_) => false,
    }
}

#[test]
fn loops_behind_a_reference(rt: HostRuntime) -> Result<(), Fail> {
    let bytes = layout(rt.alloc(), &[&SUB, &TOP])?;
    assert!(rt; bytes.len() <= 268_435_456);
    let library = read_library(rt.alloc(), &bytes)?;
    assert!(rt; has_loops(rt.alloc(), &library, DRAWN, &LOOPS));
    assert!(rt; has_loops(rt.alloc(), &library, EMPTY, &[]));
    Ok(())
}
