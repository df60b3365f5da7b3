//! Layers by tiles of several sizes and by several workers, which no answer shows.

use crate::cases::{all_hold, splits};
use crate::rectangles::SEWN;
use dpl_test_runs::Done;
use dpl_test_sample::Rectangle;
use std::alloc::{AllocError, Global};
use std::sync::Wait;
use std::test::*;
use std::thread::Threads;

/// One worker makes no tiles.
const ONE: &str = "dpl split --layer 1 --rule 30 --overlap 10 --tile 64 --workers 1 in out cert";

const TINY: &str = "dpl split --layer 1 --rule 30 --overlap 10 --tile 1 --workers 2 in out cert";

const SMALL: &str = "dpl split --layer 1 --rule 30 --overlap 10 --tile 64 --workers 2 in out cert";

const LARGEST: &str =
    "dpl split --layer 1 --rule 30 --overlap 10 --tile 1073741824 --workers 2 in out cert";

const MANY: &str = "dpl split --layer 1 --rule 30 --overlap 10 --tile 64 --workers 64 in out cert";

static ALL: [&str; 5] = [ONE, TINY, SMALL, LARGEST, MANY];

/// Lines for layers that would have too many of the least tiles.
static WIDER: [&str; 4] = [ONE, SMALL, LARGEST, MANY];

static FINER: [&str; 3] = [ONE, SMALL, MANY];

/// Layers that few of the least tiles cover.
const NARROW: &str = "# two bars one unit closer than the rule
0 0 100 20
0 49 100 69
=> done features 2 pieces 2 zones 0 stitches 0 a 1 b 1
features 2 pieces 2 zones 0 stitches 0
piece 0 A 0 0
piece 1 B 0 49
mask A
0 0 100 20
mask B
0 49 100 69
# two squares across a corner, at the rule
0 0 10 10
28 34 38 44
=> done features 2 pieces 2 zones 0 stitches 0 a 2 b 0
features 2 pieces 2 zones 0 stitches 0
piece 0 A 0 0
piece 1 A 28 34
mask A
0 0 10 10
28 34 38 44
mask B
# two squares across a corner, one unit closer
0 0 10 10
28 33 38 43
=> done features 2 pieces 2 zones 0 stitches 0 a 1 b 1
features 2 pieces 2 zones 0 stitches 0
piece 0 A 0 0
piece 1 B 28 33
mask A
0 0 10 10
mask B
28 33 38 43
";

const LONG: &str = "# two long bars
0 0 64000 20
0 40 64000 60
=> done features 2 pieces 2 zones 0 stitches 0 a 1 b 1
features 2 pieces 2 zones 0 stitches 0
piece 0 A 0 0
piece 1 B 0 40
mask A
0 0 64000 20
mask B
0 40 64000 60
";

/// A feature of 36 squares in six rows, each slab by itself, since they touch at corners alone. It is twelve columns wide.
fn chequers(alloc: Global, left: u8) -> Result<Vec<Rectangle>, AllocError> {
    let mut squares = Vec::new(alloc);
    for y in 0..6u8 {
        for k in 0..6u8 {
            let x = left as i32 + 2 * k as i32 + (y % 2) as i32;
            let low = y as i32;
            squares.push([x, low, x + 1, low + 1])?;
        }
    }
    Ok(squares)
}

/// Two features of 36 slabs each, four columns apart: they lie in a square with sides of the rule.
const DENSE: &str = "features 2 pieces 2 zones 0 stitches 0 a 36 b 36";

const DENSE_CERT: &str = "features 2 pieces 2 zones 0 stitches 0\npiece 0 A 0 0\npiece 1 B 16 0\n";

/// Whether the line splits a layer of both features.
fn parts<R: Threads + Wait + Sync>(
    rt: &R,
    alloc: Global,
    line: &str,
    a: &[Rectangle],
    b: &[Rectangle],
) -> Result<bool, AllocError> {
    let mut layer = Vec::from_slice(alloc, a)?;
    layer.extend_from_slice(b)?;
    let done = Done {
        line: DENSE,
        cert: DENSE_CERT,
        a,
        b,
    };
    splits(rt, alloc, line, layer.as_slice(), &done)
}

/// Whether the line splits both dense features.
fn is_dense_done<R: Threads + Wait + Sync>(
    rt: &R,
    alloc: Global,
    line: &str,
) -> Result<bool, AllocError> {
    let a = chequers(alloc, 0)?;
    let b = chequers(alloc, 16)?;
    parts(rt, alloc, line, a.as_slice(), b.as_slice())
}

static DENSE_LINES: [&str; 3] = [ONE, TINY, MANY];

#[test]
fn answers_show_no_tiles_or_workers(rt: HostRuntime) -> Result<(), Fail> {
    all_hold(&rt, rt.alloc(), &ALL, NARROW)?;
    all_hold(&rt, rt.alloc(), &WIDER, LONG)?;
    all_hold(&rt, rt.alloc(), &FINER, SEWN)?;
    for line in &DENSE_LINES {
        assert!(rt; is_dense_done(&rt, rt.alloc(), line)?, "at {line}");
    }
    Ok(())
}

/// Layers in conflict.
const CLASHES: &str = "# three squares, each two closer than the rule
0 0 10 10
20 0 30 10
10 20 20 30
=> conflict
features 3 pieces 3 zones 0
cycle 3
piece 0 0 0
piece 1 20 0
piece 2 10 20
near 0 0 20 0
near 20 0 10 20
near 10 20 0 0
# twice three such squares, of which the three in the last of two tiles are told of
0 5 10 15
20 5 30 15
10 25 20 35
200 0 210 10
220 0 230 10
210 20 220 30
=> conflict
features 6 pieces 6 zones 0
cycle 3
piece 0 200 0
piece 1 220 0
piece 4 210 20
near 200 0 220 0
near 220 0 210 20
near 210 20 200 0
# twice three such squares, of which the three in the first of two tiles are told of
0 0 10 10
20 0 30 10
10 20 20 30
200 5 210 15
220 5 230 15
210 25 220 35
=> conflict
features 6 pieces 6 zones 0
cycle 3
piece 0 0 0
piece 1 20 0
piece 4 10 20
near 0 0 20 0
near 20 0 10 20
near 10 20 0 0
# a mesh of 69 slabs, and two squares within the rule
0 0 1 19
2 0 3 19
4 0 5 19
6 0 7 19
8 0 9 19
10 0 11 19
12 0 13 19
14 0 15 19
16 0 17 19
18 0 19 19
20 0 21 19
22 0 23 19
24 0 25 19
0 3 25 4
0 7 25 8
0 11 25 12
0 15 25 16
27 0 28 1
27 5 28 6
=> conflict
features 3 pieces 3 zones 0
cycle 3
piece 0 0 0
piece 1 27 0
piece 2 27 5
near 0 0 27 0
near 27 0 27 5
near 27 5 0 0
";

#[test]
fn tiles_do_not_show_in_a_conflict(rt: HostRuntime) -> Result<(), Fail> {
    all_hold(&rt, rt.alloc(), &ALL, CLASHES)
}
