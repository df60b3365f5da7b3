//! Layers of rectangles in one structure.

use crate::cases::{all_hold, finds};
use dpl_test_runs::SPLIT;
use dpl_test_sample::Rectangle;
use std::alloc::{AllocError, Global};
use std::test::*;

/// Three features that are cut.
pub const SEWN: &str =
    "# three features that no two masks keep apart unless they are cut: five zones and one stitch
0 0 400 20
0 40 50 60
0 40 20 200
0 180 190 200
350 40 400 60
380 40 400 200
215 180 400 200
=> done features 3 pieces 8 zones 5 stitches 1 a 2 b 6
features 3 pieces 8 zones 5 stitches 1
piece 0 A 0 0
piece 1 A 205 0
piece 2 B 0 40
piece 3 B 350 40
piece 4 B 0 125
piece 5 B 380 125
piece 6 A 107 180
piece 7 B 215 180
stitch 97 180 107 200 4 6
mask A
0 0 400 20
97 180 190 200
mask B
0 40 50 60
350 40 400 60
0 60 20 180
380 60 400 180
0 180 107 200
215 180 400 200
";

/// Layers that are done.
const LAYERS: &str = "# one bar
0 0 100 20
=> done features 1 pieces 1 zones 0 stitches 0 a 1 b 0
features 1 pieces 1 zones 0 stitches 0
piece 0 A 0 0
mask A
0 0 100 20
mask B
# two bars one unit closer than the rule
0 0 100 20
0 49 100 69
=> done features 2 pieces 2 zones 0 stitches 0 a 1 b 1
features 2 pieces 2 zones 0 stitches 0
piece 0 A 0 0
piece 1 B 0 49
mask A
0 0 100 20
mask B
0 49 100 69
# two bars at the rule
0 0 100 20
0 50 100 70
=> done features 2 pieces 2 zones 0 stitches 0 a 2 b 0
features 2 pieces 2 zones 0 stitches 0
piece 0 A 0 0
piece 1 A 0 50
mask A
0 0 100 20
0 50 100 70
mask B
# two squares across a corner, 18 and 24 units apart
0 0 10 10
28 34 38 44
=> done features 2 pieces 2 zones 0 stitches 0 a 2 b 0
features 2 pieces 2 zones 0 stitches 0
piece 0 A 0 0
piece 1 A 28 34
mask A
0 0 10 10
28 34 38 44
mask B
# two squares across a corner, 18 and 23 units apart
0 0 10 10
28 33 38 43
=> done features 2 pieces 2 zones 0 stitches 0 a 1 b 1
features 2 pieces 2 zones 0 stitches 0
piece 0 A 0 0
piece 1 B 28 33
mask A
0 0 10 10
mask B
28 33 38 43
# a stretch of twelve columns has a zone
0 0 158 20
0 40 50 60
108 40 158 60
=> done features 3 pieces 4 zones 1 stitches 0 a 1 b 2
features 3 pieces 4 zones 1 stitches 0
piece 0 A 0 0
piece 1 A 84 0
piece 2 B 0 40
piece 3 B 108 40
mask A
0 0 158 20
mask B
0 40 50 60
108 40 158 60
# a stretch of eleven columns has no zone
0 0 157 20
0 40 50 60
107 40 157 60
=> done features 3 pieces 3 zones 0 stitches 0 a 1 b 2
features 3 pieces 3 zones 0 stitches 0
piece 0 A 0 0
piece 1 B 0 40
piece 2 B 107 40
mask A
0 0 157 20
mask B
0 40 50 60
107 40 157 60
# squares that touch at a corner are one feature
0 0 10 10
10 10 20 20
=> done features 1 pieces 1 zones 0 stitches 0 a 2 b 0
features 1 pieces 1 zones 0 stitches 0
piece 0 A 0 0
mask A
0 0 10 10
10 10 20 20
mask B
# squares with a column between are two features
0 0 10 10
11 10 20 20
=> done features 2 pieces 2 zones 0 stitches 0 a 1 b 1
features 2 pieces 2 zones 0 stitches 0
piece 0 A 0 0
piece 1 B 11 10
mask A
0 0 10 10
mask B
11 10 20 20
# features are numbered by their least squares, row before column
0 5 10 20
50 0 60 10
10 20 30 30
=> done features 2 pieces 2 zones 0 stitches 0 a 1 b 2
features 2 pieces 2 zones 0 stitches 0
piece 0 A 50 0
piece 1 B 0 5
mask A
50 0 60 10
mask B
0 5 10 20
10 20 30 30
# the first two rows that are made up from 0: each has a zone over the other's gap
0 0 714 20
814 0 2000 20
0 40 1749 60
1849 40 2000 60
=> done features 4 pieces 6 zones 2 stitches 0 a 2 b 2
features 4 pieces 6 zones 2 stitches 0
piece 0 A 0 0
piece 1 A 814 0
piece 2 A 1804 0
piece 3 B 0 40
piece 4 B 769 40
piece 5 B 1849 40
mask A
0 0 714 20
814 0 2000 20
mask B
0 40 1749 60
1849 40 2000 60
# as far from 0 as a layer may lie
0 0 1000000000 20
=> done features 1 pieces 1 zones 0 stitches 0 a 1 b 0
features 1 pieces 1 zones 0 stitches 0
piece 0 A 0 0
mask A
0 0 1000000000 20
mask B
";

#[test]
fn layers_are_split(rt: HostRuntime) -> Result<(), Fail> {
    all_hold(&rt, rt.alloc(), &[SPLIT], LAYERS)?;
    all_hold(&rt, rt.alloc(), &[SPLIT], SEWN)
}

/// Layers in conflict.
const CLASHES: &str = "# three squares, each two closer than the rule
0 0 10 10
20 0 30 10
10 20 20 30
=> conflict
features 3 pieces 3 zones 0
cycle 3
piece 0 0 0
piece 1 20 0
piece 2 10 20
near 0 0 20 0
near 20 0 10 20
near 10 20 0 0
# a bar with two below it that are too close to each other
0 0 400 20
0 40 190 60
215 40 400 60
=> conflict
features 3 pieces 3 zones 0
cycle 3
piece 0 0 0
piece 1 0 40
piece 2 215 40
near 0 10 0 40
near 185 40 215 40
near 215 40 207 10
";

#[test]
fn odd_cycles_are_told(rt: HostRuntime) -> Result<(), Fail> {
    all_hold(&rt, rt.alloc(), &[SPLIT], CLASHES)
}

/// Squares so close together that their conflicts aren't listed.
fn crowd(alloc: Global) -> Result<Vec<Rectangle>, AllocError> {
    let mut squares = Vec::new(alloc);
    for row in 0..9u8 {
        let y = 3 * (row as i32);
        for column in 0..9u8 {
            let x = 3 * (column as i32);
            squares.push([x, y, x + 2, y + 2])?;
        }
    }
    Ok(squares)
}

const CROWD_CERT: &str = "features 81 pieces 81 zones 0
cycle 3
piece 0 0 0
piece 1 3 0
piece 2 6 0
near 0 0 3 0
near 3 0 6 0
near 6 0 0 0
";

#[test]
fn a_crowd_tells_the_cycle_of_its_first_piece(rt: HostRuntime) -> Result<(), Fail> {
    let squares = crowd(rt.alloc())?;
    assert!(rt; finds(&rt, rt.alloc(), SPLIT, squares.as_slice(), CROWD_CERT)?);
    Ok(())
}
