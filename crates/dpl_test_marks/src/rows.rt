//! Worked layers with marks, through all calls from a layer to its answer.
ghost use Rattle.std.specs.Prelude.{◌≤◌, ◌<ℤ◌, IfOk, IsTrue, unsigned_abs};
ghost use Rattle.dpl_spec_split.specs.Loops.{farthest};
ghost use Rattle.dpl_cut.specs.Cutting.{HasPointKeys};

use dpl_answer::{Clash, Decomposed, MarkSets, Painted, Sharing, answer_of, conflicts_of};
use dpl_base::{FARTHEST, Listed, Pt, Rect, Spacing};
use dpl_cert::{Gain, NearLine, PieceLine, PlaceLine};
use dpl_cut::{BareLayerCut, cut_of};
use dpl_pool::OpenGate;
use dpl_slabs::Slabs;
use std::alloc::{AllocError, Global};
use std::sync::Wait;
use std::thread::Threads;

/// A rectangle by its least column and row, and those just past it.
type Corners = (i32, i32, i32, i32);

const SPACING: Spacing = Spacing {
    rule: 30,
    corner: 30,
};

/// Two bars as far apart as the rule.
const APART: [Corners; 2] = [(0, 0, 100, 20), (0, 50, 100, 70)];

/// Two bars that are closer by one row.
const CLOSE: [Corners; 2] = [(0, 0, 100, 20), (0, 49, 100, 69)];

/// One bar.
const ONE: [Corners; 1] = [(0, 0, 100, 20)];

/// A bar whose middle is a zone, and two that are close to its ends.
const BEAM: [Corners; 3] = [(0, 0, 200, 20), (0, 40, 50, 60), (150, 40, 200, 60)];

/// Whether the columns, or the rows, are some of a layer's.
fn is_span(low: i32, high: i32) -> bool
    ensures { IsTrue result → (low <ℤ high) × (unsigned_abs low ≤ farthest) × (unsigned_abs high ≤ farthest) }
{
    low < high && (low as i64) >= -FARTHEST && (high as i64) <= FARTHEST
}

/// The squares of a rectangle, where it has some.
fn one(alloc: Global, corners: Corners) -> Result<Slabs, AllocError> {
    let (x0, y0, x1, y1) = corners;
    if is_span(x0, x1) {
        if is_span(y0, y1) {
            return Slabs::one(alloc, Rect { x0, y0, x1, y1 });
        }
    }
    Ok(Slabs::empty(alloc))
}

/// The squares of these rectangles.
fn set_of(alloc: Global, rects: &[Corners]) -> Result<Slabs, AllocError> {
    let mut set = Slabs::empty(alloc);
    for corners in rects {
        let next = one(alloc, *corners)?;
        set = set.union(alloc, &next)?;
    }
    Ok(set)
}

/// The squares that are fixed to each mask.
fn marks_of(alloc: Global, a: &[Corners], b: &[Corners]) -> Result<MarkSets, AllocError> {
    let a = set_of(alloc, a)?;
    let b = set_of(alloc, b)?;
    Ok(MarkSets { a, b })
}

/// A layer cut, but at no marked square.
fn cut_beside(alloc: Global, layer: Slabs, marks: &MarkSets) -> Result<BareLayerCut, AllocError>
    ensures { IfOk result HasPointKeys }
{
    let marked = marks.a.union(alloc, &marks.b)?;
    cut_of(alloc, layer, SPACING, 10, &marked)
}

/// The answer to a cut layer with marks, plainly or with fewer stitches.
fn answer_to<R: Threads + Wait + Sync>(
    rt: &R,
    alloc: Global,
    cut: BareLayerCut,
    marks: &MarkSets,
    fewer: bool,
) -> Result<Decomposed, AllocError>
    requires { HasPointKeys cut }
{
    let sharing = Sharing {
        tile: 20,
        workers: 2,
    };
    let conflicts = conflicts_of(rt, alloc, &cut, Some(marks), SPACING, sharing, &OpenGate)?;
    answer_of(
        rt,
        alloc,
        cut,
        &conflicts,
        Some(marks),
        SPACING,
        10,
        fewer,
        2,
    )
}

/// What the answer of a layer is to be.
#[derive(Drop)]
enum Want<'a> {
    /// Masks with these letters of the pieces, `A` or `B` for each.
    Letters(&'a str),
    /// Such masks, and the gains of these components, one of whose zones has equal letters on its sides.
    Gains(&'a str, &'a [u64]),
    /// A cycle with these places, and these lines between them.
    Cycle(&'a [PlaceLine], &'a [NearLine]),
    /// Some cycle.
    SomeCycle,
}

/// A layer, squares that are fixed to mask A and to mask B, and what the answer is to be. Where that has gains, fewer stitches are asked for.
#[derive(Drop)]
struct Case<'a> {
    layer: &'a [Corners],
    a: &'a [Corners],
    b: &'a [Corners],
    want: Want<'a>,
}

/// The answer of a layer, some of whose squares are fixed to mask A or to mask B.
fn answer_with<R: Threads + Wait + Sync>(
    rt: &R,
    alloc: Global,
    case: &Case<'_>,
) -> Result<Decomposed, AllocError> {
    let layer = set_of(alloc, case.layer)?;
    let marks = marks_of(alloc, case.a, case.b)?;
    let cut = cut_beside(alloc, layer, &marks)?;
    answer_to(rt, alloc, cut, &marks, asks_for_fewer(&case.want))
}

/// Whether fewer stitches are asked for.
fn asks_for_fewer(want: &Want<'_>) -> bool {
    match want {
        Want::Gains(_, _) => true,
        _ => false,
    }
}

/// Whether pieces have these letters, `A` or `B` for each.
fn are_letters(lines: &[PieceLine], letters: &[u8]) -> bool {
    if lines.len() != letters.len() {
        return false;
    }
    for k in 0..lines.len() {
        let letter = if lines[k].b { b'B' } else { b'A' };
        if letters[k] != letter {
            return false;
        }
    }
    true
}

/// Whether gains were asked for, and are those of these components, one of whose zones has equal letters on its sides.
fn are_gains(gains: &Option<Listed<Gain>>, pieces: &[u64]) -> bool {
    let Some(lines) = gains else {
        return false;
    };
    let lines = lines.items();
    if lines.len() != pieces.len() {
        return false;
    }
    for k in 0..lines.len() {
        let gain = Gain {
            piece: pieces[k],
            d: 0,
            s: 1,
        };
        if lines[k] != gain {
            return false;
        }
    }
    true
}

/// Whether masks are what the answer is to be.
fn are_wanted(painted: &Painted, want: &Want<'_>) -> bool {
    let lines = painted.pieces.items();
    match want {
        Want::Letters(letters) => are_letters(lines, letters.as_bytes()),
        Want::Gains(letters, pieces) => {
            are_letters(lines, letters.as_bytes()) && are_gains(&painted.gains, pieces)
        }
        _ => false,
    }
}

/// Whether a cycle is what the answer is to be.
fn is_wanted(clash: &Clash, want: &Want<'_>) -> bool {
    match want {
        Want::Cycle(places, near) => {
            clash.cycle.items() == *places && clash.near.items() == *near
        }
        Want::SomeCycle => true,
        _ => false,
    }
}

/// Whether an answer is what it is to be.
fn is_met(answer: &Decomposed, want: &Want<'_>) -> bool {
    match answer {
        Decomposed::Masks(painted) => are_wanted(painted, want),
        Decomposed::Cycle(clash) => is_wanted(clash, want),
    }
}

/// Whether the answer of a layer is what it is to be.
fn is_right<R: Threads + Wait + Sync>(
    rt: &R,
    alloc: Global,
    case: &Case<'_>,
) -> Result<bool, AllocError> {
    let answer = answer_with(rt, alloc, case)?;
    Ok(is_met(&answer, &case.want))
}

/// The first case whose answer is not what it is to be.
fn first_wrong<R: Threads + Wait + Sync>(
    rt: &R,
    alloc: Global,
    cases: &[Case<'_>],
) -> Option<usize> {
    for k in 0..cases.len() {
        if is_right(rt, alloc, &cases[k]) != Ok(true) {
            return Some(k);
        }
    }
    None
}

/// Marks on two bars that are as far apart as the rule.
static LETTERS: [Case<'static>; 5] = [
    Case {
        layer: &APART,
        a: &[],
        b: &[],
        want: Want::Letters("AA"),
    },
    Case {
        layer: &APART,
        a: &[],
        b: &[(0, 50, 1, 51)],
        want: Want::Letters("AB"),
    },
    Case {
        layer: &APART,
        a: &[],
        b: &[(0, 0, 1, 1)],
        want: Want::Letters("BA"),
    },
    Case {
        layer: &APART,
        a: &[(0, 0, 1, 1)],
        b: &[(99, 69, 100, 70)],
        want: Want::Letters("AB"),
    },
    Case {
        layer: &APART,
        a: &[],
        b: &[(0, 0, 100, 70)],
        want: Want::Letters("BB"),
    },
];

#[test]
fn marks_fix_letters(rt: HostRuntime) {
    assert_eq!(rt; first_wrong(&rt, rt.alloc(), &LETTERS), None);
}

/// Marks on a beam.
static GAINS: [Case<'static>; 3] = [
    Case {
        layer: &BEAM,
        a: &[],
        b: &[],
        want: Want::Gains("AABB", &[0, 1]),
    },
    Case {
        layer: &BEAM,
        a: &[(0, 40, 1, 41)],
        b: &[],
        want: Want::Gains("BBAA", &[1]),
    },
    Case {
        layer: &BEAM,
        a: &[(0, 40, 1, 41)],
        b: &[(199, 59, 200, 60)],
        want: Want::Gains("BAAB", &[]),
    },
];

#[test]
fn marked_components_have_no_gains(rt: HostRuntime) {
    assert_eq!(rt; first_wrong(&rt, rt.alloc(), &GAINS), None);
}

/// Two close bars, both of which have a square that is fixed to mask A: the cycle goes through the anchor of mask B.
static THROUGH_BOTH: [Case<'static>; 1] = [Case {
    layer: &CLOSE,
    a: &[(0, 0, 1, 1), (0, 49, 1, 50)],
    b: &[],
    want: Want::Cycle(
        &[
            PlaceLine::Anchor { b: true },
            PlaceLine::Piece {
                piece: 0,
                key: Pt { x: 0, y: 0 },
            },
            PlaceLine::Piece {
                piece: 1,
                key: Pt { x: 0, y: 49 },
            },
        ],
        &[
            NearLine::Mark {
                at: Pt { x: 0, y: 0 },
            },
            NearLine::Pair {
                from: Pt { x: 0, y: 19 },
                to: Pt { x: 0, y: 49 },
            },
            NearLine::Mark {
                at: Pt { x: 0, y: 49 },
            },
        ],
    ),
}];

#[test]
fn near_pieces_of_one_mark_are_a_cycle_through_an_anchor(rt: HostRuntime) {
    assert_eq!(rt; first_wrong(&rt, rt.alloc(), &THROUGH_BOTH), None);
}

/// A bar that has a square of both marks: the cycle goes through both anchors.
static THROUGH_ONE: [Case<'static>; 1] = [Case {
    layer: &ONE,
    a: &[(4, 5, 6, 7)],
    b: &[(4, 5, 6, 7)],
    want: Want::Cycle(
        &[
            PlaceLine::Anchor { b: false },
            PlaceLine::Anchor { b: true },
            PlaceLine::Piece {
                piece: 0,
                key: Pt { x: 0, y: 0 },
            },
        ],
        &[
            NearLine::Anchors,
            NearLine::Mark {
                at: Pt { x: 4, y: 5 },
            },
            NearLine::Mark {
                at: Pt { x: 4, y: 5 },
            },
        ],
    ),
}];

#[test]
fn a_square_of_both_marks_is_a_cycle(rt: HostRuntime) {
    assert_eq!(rt; first_wrong(&rt, rt.alloc(), &THROUGH_ONE), None);
}

/// Adds a row of a comb with its teeth.
fn add_row(rects: &mut Vec<Corners>, row: u8) -> Result<(), AllocError> {
    let y = 2 * (row as i32);
    rects.push((0, y, 28, y + 1))?;
    for tooth in 0..14u8 {
        let x = 2 * (tooth as i32);
        rects.push((x, y, x + 1, y + 2))?;
    }
    Ok(())
}

/// A comb of so many slabs on a square with sides of the rule that all edges are listed at once.
fn comb(alloc: Global) -> Result<Vec<Corners>, AllocError> {
    let mut rects = Vec::new(alloc);
    for row in 0..14u8 {
        add_row(&mut rects, row)?;
    }
    Ok(rects)
}

/// Whether the comb with a square of mask B is one piece on that mask, and has a cycle with the square of both masks.
fn is_dense_right<R: Threads + Wait + Sync>(rt: &R, alloc: Global) -> Result<bool, AllocError> {
    let rects = comb(alloc)?;
    let cases = [
        Case {
            layer: &rects,
            a: &[],
            b: &[(3, 0, 4, 1)],
            want: Want::Letters("B"),
        },
        Case {
            layer: &rects,
            a: &[(3, 0, 4, 1)],
            b: &[(3, 0, 4, 1)],
            want: Want::SomeCycle,
        },
    ];
    Ok(first_wrong(rt, alloc, &cases).is_none())
}

#[test]
fn marks_of_a_dense_layer(rt: HostRuntime) {
    assert!(rt; is_dense_right(&rt, rt.alloc()) == Ok(true));
}
