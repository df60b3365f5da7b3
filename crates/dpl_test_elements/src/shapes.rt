//! Paths, boxes and boundaries, and elements without a shape.

use crate::cases::all_hold;
use dpl_test_runs::SPLIT;
use std::test::*;

/// Elements and what they draw.
const DRAWN: &str = "# a path with butt ends
begin TOP\0
PATH 9 0
LAYER 13 2 0 1
DATATYPE 14 2 0 0
PATHTYPE 33 2 0 0
WIDTH 15 3 20
XY 16 3 0 0 100 0 100 100
ENDEL 17 0
end
=> done features 1 pieces 1 zones 0 stitches 0 a 2 b 0
features 1 pieces 1 zones 0 stitches 0
piece 0 A 0 -10
mask A
0 -10 110 10
90 10 110 100
# a path with square ends
begin TOP\0
PATH 9 0
LAYER 13 2 0 1
DATATYPE 14 2 0 0
PATHTYPE 33 2 0 2
WIDTH 15 3 20
XY 16 3 0 0 100 0 100 100
ENDEL 17 0
end
=> done features 1 pieces 1 zones 0 stitches 0 a 2 b 0
features 1 pieces 1 zones 0 stitches 0
piece 0 A -10 -10
mask A
-10 -10 110 10
90 10 110 110
# a path with extended ends
begin TOP\0
PATH 9 0
LAYER 13 2 0 1
DATATYPE 14 2 0 0
PATHTYPE 33 2 0 4
WIDTH 15 3 20
BGNEXTN 48 3 5
ENDEXTN 49 3 0
XY 16 3 0 0 100 0 100 100
ENDEL 17 0
end
=> done features 1 pieces 1 zones 0 stitches 0 a 2 b 0
features 1 pieces 1 zones 0 stitches 0
piece 0 A -5 -10
mask A
-5 -10 110 10
90 10 110 100
# a path with a point that stands twice
begin TOP\0
PATH 9 0
LAYER 13 2 0 1
DATATYPE 14 2 0 0
PATHTYPE 33 2 0 0
WIDTH 15 3 20
XY 16 3 0 0 100 0 100 0 100 100
ENDEL 17 0
end
=> done features 1 pieces 1 zones 0 stitches 0 a 2 b 0
features 1 pieces 1 zones 0 stitches 0
piece 0 A 0 -10
mask A
0 -10 110 10
90 10 110 100
# a path on another layer
begin TOP\0
PATH 9 0
LAYER 13 2 0 2
DATATYPE 14 2 0 0
PATHTYPE 33 2 0 0
WIDTH 15 3 20
XY 16 3 0 0 100 0 100 100
ENDEL 17 0
end
=> done features 0 pieces 0 zones 0 stitches 0 a 0 b 0
features 0 pieces 0 zones 0 stitches 0
mask A
# a path on another layer with round ends
begin TOP\0
PATH 9 0
LAYER 13 2 0 2
DATATYPE 14 2 0 0
PATHTYPE 33 2 0 1
WIDTH 15 3 20
XY 16 3 0 0 100 0 100 100
ENDEL 17 0
end
=> done features 0 pieces 0 zones 0 stitches 0 a 0 b 0
features 0 pieces 0 zones 0 stitches 0
mask A
# a boundary whose two parts turn opposite ways
begin TOP\0
BOUNDARY 8 0
LAYER 13 2 0 1
DATATYPE 14 2 0 0
XY 16 3 0 0 10 0 10 20 20 20 20 10 0 10 0 0
ENDEL 17 0
end
=> done features 1 pieces 1 zones 0 stitches 0 a 2 b 0
features 1 pieces 1 zones 0 stitches 0
piece 0 A 0 0
mask A
0 0 10 10
10 10 20 20
# a square with a square hole, whose two edges between the loops are one doubled edge, with its first point again at the end
begin TOP\0
BOUNDARY 8 0
LAYER 13 2 0 1
DATATYPE 14 2 0 0
XY 16 3 0 0 100 0 100 100 0 100 0 50 40 50 40 60 60 60 60 40 40 40 40 50 0 50 0 0
ENDEL 17 0
end
=> done features 1 pieces 4 zones 4 stitches 0 a 4 b 0
features 1 pieces 4 zones 4 stitches 0
piece 0 A 0 0
piece 1 A 55 0
piece 2 A 0 55
piece 3 A 60 55
mask A
0 0 100 40
0 40 40 60
60 40 100 60
0 60 100 100
# the same without
begin TOP\0
BOUNDARY 8 0
LAYER 13 2 0 1
DATATYPE 14 2 0 0
XY 16 3 0 0 100 0 100 100 0 100 0 50 40 50 40 60 60 60 60 40 40 40 40 50 0 50
ENDEL 17 0
end
=> done features 1 pieces 4 zones 4 stitches 0 a 4 b 0
features 1 pieces 4 zones 4 stitches 0
piece 0 A 0 0
piece 1 A 55 0
piece 2 A 0 55
piece 3 A 60 55
mask A
0 0 100 40
0 40 40 60
60 40 100 60
0 60 100 100
# a box, with each record that an element may have
begin TOP\0
BOX 45 0
ELFLAGS 38 1 0 0
PLEX 47 3 7
LAYER 13 2 0 1
BOXTYPE 46 2 0 0
XY 16 3 0 0 100 0 100 20 0 20 0 0
PROPATTR 43 2 0 1
PROPVALUE 44 6 A\0
PROPATTR 43 2 0 1
PROPVALUE 44 6 A\0
ENDEL 17 0
end
=> done features 1 pieces 1 zones 0 stitches 0 a 1 b 0
features 1 pieces 1 zones 0 stitches 0
piece 0 A 0 0
mask A
0 0 100 20
# a text and a node, which have no shape, beside a bar, and records that are passed over
ATTRTABLE 35 2 0 1
LIBSECUR 59 9 1 2 3 4
begin TOP\0
STRCLASS 52 2 0 0
bar 0 0 100 20
TEXT 12 0
ELFLAGS 38 1 0 0
PLEX 47 3 7
LAYER 13 2 0 1
TEXTTYPE 22 2 0 0
PRESENTATION 23 1 0 0
PATHTYPE 33 2 0 1
WIDTH 15 3 20
STRANS 26 1 0 6
MAG 27 5 65 32 0 0 0 0 0 0
ANGLE 28 5 66 45 0 0 0 0 0 0
XY 16 3 500 500
STRING 25 6 A\0
PROPATTR 43 2 0 1
PROPVALUE 44 6 A\0
ENDEL 17 0
NODE 21 0
ELFLAGS 38 1 0 0
PLEX 47 3 7
LAYER 13 2 0 1
NODETYPE 42 2 0 0
XY 16 3 500 500 501 503
ENDEL 17 0
end
=> done features 1 pieces 1 zones 0 stitches 0 a 1 b 0
features 1 pieces 1 zones 0 stitches 0
piece 0 A 0 0
mask A
0 0 100 20
";

#[test]
fn shapes_are_drawn(rt: HostRuntime) -> Result<(), Fail> {
    all_hold(&rt, rt.alloc(), SPLIT, DRAWN)
}

/// Elements that are refused.
const REFUSED: &str = "# a path with round ends
begin TOP\0
PATH 9 0
LAYER 13 2 0 1
DATATYPE 14 2 0 0
PATHTYPE 33 2 0 1
WIDTH 15 3 20
XY 16 3 0 0 100 0 100 100
ENDEL 17 0
end
=> refused RoundPath 98
# a path with ends of no kind
begin TOP\0
PATH 9 0
LAYER 13 2 0 1
DATATYPE 14 2 0 0
PATHTYPE 33 2 0 3
WIDTH 15 3 20
XY 16 3 0 0 100 0 100 100
ENDEL 17 0
end
=> refused BadPathType 98
# a path of odd width
begin TOP\0
PATH 9 0
LAYER 13 2 0 1
DATATYPE 14 2 0 0
PATHTYPE 33 2 0 0
WIDTH 15 3 7
XY 16 3 0 0 100 0 100 100
ENDEL 17 0
end
=> refused OddWidth 98
# a path with a slanted edge
begin TOP\0
PATH 9 0
LAYER 13 2 0 1
DATATYPE 14 2 0 0
PATHTYPE 33 2 0 0
WIDTH 15 3 20
XY 16 3 0 0 100 0 101 100
ENDEL 17 0
end
=> refused SlantedPath 98
# a path that turns back
begin TOP\0
PATH 9 0
LAYER 13 2 0 1
DATATYPE 14 2 0 0
PATHTYPE 33 2 0 0
WIDTH 15 3 20
XY 16 3 0 0 100 0 50 0
ENDEL 17 0
end
=> refused PathTurnsBack 98
# a path with a negative extension
begin TOP\0
PATH 9 0
LAYER 13 2 0 1
DATATYPE 14 2 0 0
PATHTYPE 33 2 0 4
WIDTH 15 3 20
BGNEXTN 48 3 -1
XY 16 3 0 0 100 0 100 100
ENDEL 17 0
end
=> refused NegativeExtension 98
# a boundary with a slanted edge
begin TOP\0
BOUNDARY 8 0
LAYER 13 2 0 1
DATATYPE 14 2 0 0
XY 16 3 0 0 100 0 101 20 0 20 0 0
ENDEL 17 0
end
=> refused SlantedBoundary 98
# a box with a slanted edge
begin TOP\0
BOX 45 0
LAYER 13 2 0 1
BOXTYPE 46 2 0 0
XY 16 3 0 0 100 0 101 20 0 20 0 0
ENDEL 17 0
end
=> refused SlantedBoundary 98
# a text of two points
begin TOP\0
TEXT 12 0
LAYER 13 2 0 1
TEXTTYPE 22 2 0 0
XY 16 3 0 0 1 1
STRING 25 6 A\0
ENDEL 17 0
end
=> refused BadSize 114
# a bar that is too far right
begin TOP\0
bar 0 0 1000000001 20
end
=> refused OutOfRange 98
";

#[test]
fn shapes_are_refused(rt: HostRuntime) -> Result<(), Fail> {
    all_hold(&rt, rt.alloc(), SPLIT, REFUSED)
}
