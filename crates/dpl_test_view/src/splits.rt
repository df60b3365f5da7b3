//! Odd cycles and stitches: lines, JSON and markers.
ghost use Rattle.dpl_view.specs.Findings.{IsInRange};

use crate::said::Said::{self, Ends, Has, Is};
use crate::said::are_so;
use dpl_answer::{Clash, Sharing};
use dpl_base::{Listed, Pt};
use dpl_cert::{Head, NearLine, PlaceLine};
use dpl_layer::LayerChoice;
use dpl_pool::OpenGate;
use dpl_show::{
    conflict_json, conflict_lines, cycle_markers, stitch_json, stitch_lines, stitch_markers,
};
use dpl_test_sample::{Rectangle, bars};
use dpl_view::{Cycles, Finding, Order, Seams, Split, Tangles, find, find_stitches};
use std::alloc::{AllocError, Global};
use std::sync::Wait;
use std::test::Fail;
use std::thread::Threads;

const LIMIT: usize = 268_435_456;

static APART: [Rectangle; 6] = [
    [0, 0, 1, 1],
    [20, 0, 21, 1],
    [10, 20, 11, 21],
    [1000, 0, 1001, 1],
    [1020, 0, 1021, 1],
    [1010, 20, 1011, 21],
];

/// The markers of both triangles: from piece to piece, and back to the first.
const APART_ITEMS: &str = " <items>
<item><category>cycle</category><cell>TOP</cell><values><value>text: 'cycle 0: 3 pieces'</value><value>path: (0.001,0;0.02,0;0.02,0.001;0.011,0.02;0.01,0.02;0.001,0.001;0.001,0) w=0 bx=0 ex=0 r=false</value></values></item>
<item><category>cycle</category><cell>TOP</cell><values><value>text: 'cycle 1: 3 pieces'</value><value>path: (1.001,0;1.02,0;1.02,0.001;1.011,0.02;1.01,0.02;1.001,0.001;1.001,0) w=0 bx=0 ex=0 r=false</value></values></item>
 </items>
</report-database>
";

static BAR: [Rectangle; 1] = [[0, 0, 400, 20]];

static WIRES: [Rectangle; 7] = [
    [0, 0, 400, 20],
    [0, 40, 50, 60],
    [0, 40, 20, 200],
    [0, 180, 190, 200],
    [350, 40, 400, 60],
    [380, 40, 400, 200],
    [215, 180, 400, 200],
];

/// Two rectangles, each near the other and near a shape that stands left of the first and over the second.
const BESIDE: [Rectangle; 2] = [[45, 20, 65, 130], [20, -25, 50, -5]];

/// The lines of both layouts with such a shape.
const BESIDE_LINES: &str = "cycle 0 pieces 3 box 0 -25 46 21
piece 0 20 -25
piece 1 0 0
piece 2 45 20
near 20 -25 2 0
near 20 2 45 20
near 45 20 37 -10
conflicts cycles 1 pieces 3 edges 3
";

/// What is asked of each layout.
fn order() -> Order<'static>
    ensures { IsInRange result }
{
    Order {
        choice: LayerChoice {
            top: None,
            layer: 1,
            datatype: 0,
        },
        rule: 30,
        overlap: 10,
        sharing: Sharing {
            tile: 4096,
            workers: 2,
        },
    }
}

/// What is said of a layout, as lines and as JSON, and its markers.
struct Shown {
    lines: &'static [Said<'static>],
    json: &'static [Said<'static>],
    markers: &'static [Said<'static>],
}

/// Whether these lines, this JSON and these markers are so.
fn are_shown(shown: &Shown, lines: &str, json: &str, markers: &[u8]) -> bool {
    let Ok(markers) = str::from_utf8(markers) else {
        return false;
    };
    are_so(lines, shown.lines) && are_so(json, shown.json) && are_so(markers, shown.markers)
}

/// Whether odd cycles are shown so.
fn are_cycles(alloc: Global, found: &Cycles, shown: &Shown) -> Result<bool, AllocError> {
    let lines = conflict_lines(alloc, &found.tangles)?;
    let json = conflict_json(alloc, &found.tangles)?;
    let markers = cycle_markers(alloc, found)?;
    Ok(are_shown(shown, lines.as_str(), json.as_str(), markers.as_slice()))
}

/// Whether the odd cycles of rectangles are shown so.
fn have_cycles<R: Threads + Wait + Sync>(
    rt: &R,
    alloc: Global,
    rectangles: &[Rectangle],
    shown: &Shown,
) -> Result<bool, AllocError> {
    let bytes = bars(alloc, rectangles)?;
    if bytes.len() <= LIMIT {
        match find(rt, alloc, &order(), bytes, &OpenGate)? {
            Finding::Cycles(found) => are_cycles(alloc, &found, shown),
            Finding::Refused { .. } => Ok(false),
        }
    } else {
        Ok(false)
    }
}

static TWO_CYCLES: Shown = Shown {
    lines: &[Ends("\nnear 1010 20 1000 0\nconflicts cycles 2 pieces 6 edges 6\n")],
    json: &[Is(
        "{\"cycles\":[{\"box\":[0,0,21,21],\"near\":[[[0,0],[20,0]],[[20,0],[10,20]],[[10,20],[0,0]]],\"pieces\":[{\"piece\":0,\"x\":0,\"y\":0},{\"piece\":1,\"x\":20,\"y\":0},{\"piece\":4,\"x\":10,\"y\":20}]},{\"box\":[1000,0,1021,21],\"near\":[[[1000,0],[1020,0]],[[1020,0],[1010,20]],[[1010,20],[1000,0]]],\"pieces\":[{\"piece\":2,\"x\":1000,\"y\":0},{\"piece\":3,\"x\":1020,\"y\":0},{\"piece\":5,\"x\":1010,\"y\":20}]}],\"edges\":6,\"pieces\":6}\n",
    )],
    markers: &[
        Has("<description>Odd cycles of conflicts</description>"),
        Ends(APART_ITEMS),
    ],
};

static NO_CYCLES: Shown = Shown {
    lines: &[Is("conflicts cycles 0 pieces 0 edges 0\n")],
    json: &[Is("{\"cycles\":[],\"edges\":0,\"pieces\":0}\n")],
    markers: &[Ends(" <items>\n </items>\n</report-database>\n")],
};

#[test]
fn conflicts_are_listed(rt: HostRuntime) {
    assert!(rt; have_cycles(&rt, rt.alloc(), &APART, &TWO_CYCLES) == Ok(true));
    assert!(rt; have_cycles(&rt, rt.alloc(), &BAR, &NO_CYCLES) == Ok(true));
}

/// The layout with a shape of two slabs: its rows are 20 squares wide, and from row 2 on 21.
fn of_few_slabs(alloc: Global) -> Result<Vec<Rectangle>, AllocError> {
    let mut rectangles = Vec::from_array(alloc, BESIDE)?;
    rectangles.push([0, 0, 20, 2])?;
    rectangles.push([0, 2, 21, 130])?;
    Ok(rectangles)
}

/// The layout with a shape of 65 slabs: by turns two of its rows are 20 squares wide, and two 21.
fn of_many_slabs(alloc: Global) -> Result<Vec<Rectangle>, AllocError> {
    let mut rectangles = Vec::from_array(alloc, BESIDE)?;
    for k in 0..65u8 {
        let y = 2 * (k as i32);
        rectangles.push([0, y, 20 + (k % 2) as i32, y + 2])?;
    }
    Ok(rectangles)
}

static BESIDE_SHOWN: Shown = Shown {
    lines: &[Is(BESIDE_LINES)],
    json: &[],
    markers: &[],
};

#[test]
fn near_squares_are_found_pair_by_pair_and_by_a_tree(rt: HostRuntime) -> Result<(), Fail> {
    let few = of_few_slabs(rt.alloc())?;
    assert!(rt; have_cycles(&rt, rt.alloc(), few.as_slice(), &BESIDE_SHOWN) == Ok(true));
    let many = of_many_slabs(rt.alloc())?;
    assert!(rt; have_cycles(&rt, rt.alloc(), many.as_slice(), &BESIDE_SHOWN) == Ok(true));
    Ok(())
}

/// Both anchors and a piece.
const PLACES: [PlaceLine; 3] = [
    PlaceLine::Anchor { b: false },
    PlaceLine::Anchor { b: true },
    PlaceLine::Piece {
        piece: 0,
        key: Pt { x: 0, y: 0 },
    },
];

/// How each is joined to the next.
const NEAR: [NearLine; 3] = [
    NearLine::Anchors,
    NearLine::Mark {
        at: Pt { x: 5, y: 0 },
    },
    NearLine::Mark {
        at: Pt { x: 8, y: 1 },
    },
];

const HEAD: Head = Head {
    rule: 30,
    overlap: 10,
    corner: 30,
    features: 1,
    pieces: 1,
    zones: 0,
};

/// A cycle of a piece and both anchors.
fn anchored(alloc: Global) -> Result<Cycles, AllocError> {
    let clash = Clash {
        head: HEAD,
        cycle: Listed::of(Vec::from_slice(alloc, &PLACES)?),
        near: Listed::of(Vec::from_slice(alloc, &NEAR)?),
    };
    let mut clashes = Vec::new(alloc);
    clashes.push(clash)?;
    Ok(Cycles {
        copied: Vec::new(alloc),
        tangles: Tangles { clashes, edges: 3 },
    })
}

static ANCHORED: Shown = Shown {
    lines: &[Is(
        "cycle 0 pieces 1 box 0 0 9 2\nanchor A\nanchor B\npiece 0 0 0\nanchors\nmarked 5 0\nmarked 8 1\nconflicts cycles 1 pieces 1 edges 3\n",
    )],
    json: &[Is(
        "{\"cycles\":[{\"box\":[0,0,9,2],\"near\":[[],[[5,0]],[[8,1]]],\"pieces\":[{\"anchor\":\"A\"},{\"anchor\":\"B\"},{\"piece\":0,\"x\":0,\"y\":0}]}],\"edges\":3,\"pieces\":1}\n",
    )],
    markers: &[Has("<value>text: 'cycle 0: 1 pieces'</value><value>path: (")],
};

#[test]
fn anchors_are_shown(rt: HostRuntime) -> Result<(), Fail> {
    let found = anchored(rt.alloc())?;
    assert!(rt; are_cycles(rt.alloc(), &found, &ANCHORED)?);
    Ok(())
}

/// Whether stitches are shown so; of a layer without masks the length of a cycle is looked at, as lines.
fn are_seams(
    alloc: Global,
    copied: &[u8],
    seams: &Seams,
    shown: &Shown,
) -> Result<bool, AllocError> {
    match seams {
        Seams::Stitches(found) => {
            let lines = stitch_lines(alloc, found.items(), 10)?;
            let json = stitch_json(alloc, found.items(), 10)?;
            let markers = stitch_markers(alloc, copied, found.items())?;
            Ok(are_shown(shown, lines.as_str(), json.as_str(), markers.as_slice()))
        }
        Seams::Conflict(pieces) => {
            let length = format!(in alloc; "{pieces}")?;
            Ok(are_shown(shown, length.as_str(), "", &[]))
        }
    }
}

/// Whether the stitches of rectangles are shown so.
fn have_seams<R: Threads + Wait + Sync>(
    rt: &R,
    alloc: Global,
    rectangles: &[Rectangle],
    shown: &Shown,
) -> Result<bool, AllocError> {
    let bytes = bars(alloc, rectangles)?;
    if bytes.len() <= LIMIT {
        match find_stitches(rt, alloc, &order(), bytes, &OpenGate)? {
            Split::Answered { copied, seams } => {
                are_seams(alloc, copied.as_slice(), &seams, shown)
            }
            Split::Refused { .. } => Ok(false),
        }
    } else {
        Ok(false)
    }
}

static ONE_STITCH: Shown = Shown {
    lines: &[Is("stitch 0 box 97 180 107 200 length 10 width 20 pieces 4 6\nstitches 1\n")],
    json: &[Is(
        "{\"stitches\":[{\"box\":[97,180,107,200],\"length\":10,\"pieces\":[4,6],\"width\":20}]}\n",
    )],
    markers: &[Has(
        "\n<item><category>stitch</category><cell>TOP</cell><values><value>text: 'stitch between the pieces 4 and 6'</value><value>box: (0.097,0.18;0.107,0.2)</value></values></item>\n",
    )],
};

static NO_MASKS: Shown = Shown {
    lines: &[Is("3")],
    json: &[],
    markers: &[],
};

#[test]
fn stitches_are_listed(rt: HostRuntime) {
    assert!(rt; have_seams(&rt, rt.alloc(), &WIRES, &ONE_STITCH) == Ok(true));
    assert!(rt; have_seams(&rt, rt.alloc(), &APART, &NO_MASKS) == Ok(true));
}
