//! References, arrays and the choice of the top.

use crate::cases::all_hold;
use dpl_test_runs::SPLIT;
use std::test::*;

/// A split whose top is named.
const SPLIT_TOP: &str = "dpl split --layer 1 --rule 30 --overlap 10 --top TOP in out cert";

const SPLIT_NONE: &str = "dpl split --layer 1 --rule 30 --overlap 10 --top NONE in out cert";

const SPLIT_A: &str = "dpl split --layer 1 --rule 30 --overlap 10 --top A in out cert";

/// References from the only top.
const FOLLOWED: &str = "# a reference that isn't turned
begin SUB\0
bar 0 0 100 20
end
begin TOP\0
SREF 10 0
SNAME 18 6 SUB\0
STRANS 26 1 0 0
XY 16 3 0 0
ENDEL 17 0
end
=> done features 1 pieces 1 zones 0 stitches 0 a 1 b 0
features 1 pieces 1 zones 0 stitches 0
piece 0 A 0 0
mask A
0 0 100 20
# a scale of 1 that isn't normalised, and a whole turn
begin SUB\0
bar 0 0 100 20
end
begin TOP\0
SREF 10 0
SNAME 18 6 SUB\0
STRANS 26 1 0 0
MAG 27 5 66 1 0 0 0 0 0 0
ANGLE 28 5 67 22 128 0 0 0 0 0
XY 16 3 0 0
ENDEL 17 0
end
=> done features 1 pieces 1 zones 0 stitches 0 a 1 b 0
features 1 pieces 1 zones 0 stitches 0
piece 0 A 0 0
mask A
0 0 100 20
# a quarter turn back
begin SUB\0
bar 0 0 100 20
end
begin TOP\0
SREF 10 0
SNAME 18 6 SUB\0
STRANS 26 1 0 0
ANGLE 28 5 194 90 0 0 0 0 0 0
XY 16 3 0 0
ENDEL 17 0
end
=> done features 1 pieces 1 zones 0 stitches 0 a 1 b 0
features 1 pieces 1 zones 0 stitches 0
piece 0 A 0 -100
mask A
0 -100 20 0
# a cycle of references that the top doesn't reach
begin A\0
SREF 10 0
SNAME 18 6 B\0
XY 16 3 0 0
ENDEL 17 0
end
begin B\0
SREF 10 0
SNAME 18 6 A\0
XY 16 3 0 0
ENDEL 17 0
end
begin TOP\0
bar 0 0 100 20
end
=> done features 1 pieces 1 zones 0 stitches 0 a 1 b 0
features 1 pieces 1 zones 0 stitches 0
piece 0 A 0 0
mask A
0 0 100 20
# a reflected and turned array of three columns and two rows
begin SUB\0
bar 0 0 30 10
end
begin TOP\0
AREF 11 0
SNAME 18 6 SUB\0
STRANS 26 1 128 0
ANGLE 28 5 66 90 0 0 0 0 0 0
COLROW 19 2 0 3 0 2
XY 16 3 100 200 250 200 100 340
ENDEL 17 0
end
=> done features 6 pieces 6 zones 0 stitches 0 a 6 b 0
features 6 pieces 6 zones 0 stitches 0
piece 0 A 100 200
piece 1 A 150 200
piece 2 A 200 200
piece 3 A 100 270
piece 4 A 150 270
piece 5 A 200 270
mask A
100 200 110 230
150 200 160 230
200 200 210 230
100 270 110 300
150 270 160 300
200 270 210 300
";

/// A top that a name chooses.
const CHOSEN: &str = "# a top that is referred to
begin TOP\0
bar 0 0 100 20
end
begin SUB\0
SREF 10 0
SNAME 18 6 TOP\0
STRANS 26 1 0 0
ANGLE 28 5 66 90 0 0 0 0 0 0
XY 16 3 0 0
ENDEL 17 0
end
begin SUX\0
bar 0 0 100 20
end
=> done features 1 pieces 1 zones 0 stitches 0 a 1 b 0
features 1 pieces 1 zones 0 stitches 0
piece 0 A 0 0
mask A
0 0 100 20
";

#[test]
fn references_are_followed(rt: HostRuntime) -> Result<(), Fail> {
    all_hold(&rt, rt.alloc(), SPLIT, FOLLOWED)?;
    all_hold(&rt, rt.alloc(), SPLIT_TOP, CHOSEN)
}

/// References that are refused, and a choice that is missing.
const REFUSED: &str = "# an eighth of a turn
begin SUB\0
bar 0 0 100 20
end
begin TOP\0
SREF 10 0
SNAME 18 6 SUB\0
STRANS 26 1 0 0
ANGLE 28 5 66 45 0 0 0 0 0 0
XY 16 3 0 0
ENDEL 17 0
end
=> refused AngleNotRight 202
# a scale of 2
begin SUB\0
bar 0 0 100 20
end
begin TOP\0
SREF 10 0
SNAME 18 6 SUB\0
STRANS 26 1 0 0
MAG 27 5 65 32 0 0 0 0 0 0
XY 16 3 0 0
ENDEL 17 0
end
=> refused Magnified 202
# an absolute scale
begin SUB\0
bar 0 0 100 20
end
begin TOP\0
SREF 10 0
SNAME 18 6 SUB\0
STRANS 26 1 0 4
XY 16 3 0 0
ENDEL 17 0
end
=> refused AbsoluteTransform 202
# an absolute turn
begin SUB\0
bar 0 0 100 20
end
begin TOP\0
SREF 10 0
SNAME 18 6 SUB\0
STRANS 26 1 0 2
XY 16 3 0 0
ENDEL 17 0
end
=> refused AbsoluteTransform 202
# an array with a spacing that isn't whole
begin SUB\0
bar 0 0 100 20
end
begin TOP\0
AREF 11 0
SNAME 18 6 SUB\0
COLROW 19 2 0 3 0 2
XY 16 3 100 200 251 200 100 340
ENDEL 17 0
end
=> refused BadArray 202
# a reference with two points
begin SUB\0
bar 0 0 100 20
end
begin TOP\0
SREF 10 0
SNAME 18 6 SUB\0
XY 16 3 0 0 0 0
ENDEL 17 0
end
=> refused BadSize 214
# an array with two points
begin SUB\0
bar 0 0 100 20
end
begin TOP\0
AREF 11 0
SNAME 18 6 SUB\0
COLROW 19 2 0 3 0 2
XY 16 3 100 200 250 200
ENDEL 17 0
end
=> refused BadSize 222
# two structures that no reference names
begin SUB\0
bar 0 0 100 20
end
begin TOP\0
bar 0 0 100 20
end
=> refused ManyTops 2
# a cycle of references that the top reaches
begin A\0
SREF 10 0
SNAME 18 6 B\0
XY 16 3 0 0
ENDEL 17 0
end
begin B\0
SREF 10 0
SNAME 18 6 A\0
XY 16 3 0 0
ENDEL 17 0
end
begin TOP\0
SREF 10 0
SNAME 18 6 A\0
XY 16 3 0 0
ENDEL 17 0
end
=> refused Recursion 96
";

/// A reference below the top that a name chooses.
const LOST: &str = "# a reference to a structure that isn't there
begin SUB\0
bar 0 0 100 20
end
begin TOP\0
SREF 10 0
SNAME 18 6 SUX\0
XY 16 3 0 0
ENDEL 17 0
end
=> refused MissingStructure 202
";

/// A name that chooses no top.
const NOT_CHOSEN: &str = "# a name that no structure has
begin SUB\0
bar 0 0 100 20
end
begin TOP\0
SREF 10 0
SNAME 18 6 SUB\0
XY 16 3 0 0
ENDEL 17 0
end
=> refused NoTop 0
";

#[test]
fn references_are_refused(rt: HostRuntime) -> Result<(), Fail> {
    all_hold(&rt, rt.alloc(), SPLIT, REFUSED)?;
    all_hold(&rt, rt.alloc(), SPLIT_TOP, LOST)?;
    all_hold(&rt, rt.alloc(), SPLIT_NONE, NOT_CHOSEN)
}

/// Chains of structures of which each places the next one.
const FLAT: &str = "# 100,000 structures, of which each refers to the next
begin TOP\0
SREF 10 0
SNAME 18 6 @@@A
XY 16 3 0 0
ENDEL 17 0
end
chain 99999 SREF 10 0, next, XY 16 3 0 0, ENDEL 17 0
bar 0 0 100 20
end
=> done features 1 pieces 1 zones 0 stitches 0 a 1 b 0
features 1 pieces 1 zones 0 stitches 0
piece 0 A 0 0
mask A
0 0 100 20
# 4,096 bars in one place
begin TOP\0
SREF 10 0
SNAME 18 6 @@@A
XY 16 3 0 0
ENDEL 17 0
SREF 10 0
SNAME 18 6 @@@A
XY 16 3 0 0
ENDEL 17 0
end
chain 12 SREF 10 0, next, XY 16 3 0 0, ENDEL 17 0, SREF 10 0, next, XY 16 3 0 0, ENDEL 17 0
bar 0 0 100 20
end
=> done features 1 pieces 1 zones 0 stitches 0 a 1 b 0
features 1 pieces 1 zones 0 stitches 0
piece 0 A 0 0
mask A
0 0 100 20
# arrays of ten by ten of nothing
begin TOP\0
AREF 11 0
SNAME 18 6 @@@A
COLROW 19 2 0 10 0 10
XY 16 3 0 0 0 0 0 0
ENDEL 17 0
end
chain 12 AREF 11 0, next, COLROW 19 2 0 10 0 10, XY 16 3 0 0 0 0 0 0, ENDEL 17 0
end
=> done features 0 pieces 0 zones 0 stitches 0 a 0 b 0
features 0 pieces 0 zones 0 stitches 0
mask A
# 10,485,760 points; one more level would be too many
begin TOP\0
SREF 10 0
SNAME 18 6 @@@A
XY 16 3 0 0
ENDEL 17 0
SREF 10 0
SNAME 18 6 @@@A
XY 16 3 0 0
ENDEL 17 0
end
chain 21 SREF 10 0, next, XY 16 3 0 0, ENDEL 17 0, SREF 10 0, next, XY 16 3 0 0, ENDEL 17 0
bar 0 0 1 1
end
=> done features 1 pieces 1 zones 0 stitches 0 a 1 b 0
features 1 pieces 1 zones 0 stitches 0
piece 0 A 0 0
mask A
0 0 1 1
";

#[test]
fn towers_are_flattened(rt: HostRuntime) -> Result<(), Fail> {
    all_hold(&rt, rt.alloc(), SPLIT, FLAT)
}

/// An array over a long chain.
const OVER_A_CHAIN: &str =
    "# 500 by 500 copies, all at one place, of a chain of 4,000 structures, at whose end a bar is drawn
begin TOP\0
AREF 11 0
SNAME 18 6 @@@A
COLROW 19 2 1 244 1 244
XY 16 3 0 0 0 0 0 0
ENDEL 17 0
end
chain 4000 SREF 10 0, next, XY 16 3 0 0, ENDEL 17 0
bar 0 0 100 20
end
=> done features 1 pieces 1 zones 0 stitches 0 a 1 b 0
features 1 pieces 1 zones 0 stitches 0
piece 0 A 0 0
mask A
0 0 100 20
";

#[test]
fn an_array_over_a_long_chain_takes_no_long_time(rt: HostRuntime) -> Result<(), Fail> {
    all_hold(&rt, rt.alloc(), SPLIT, OVER_A_CHAIN)
}

/// Chains that are refused, whose top is named A.
const TOO_HIGH: &str = "# a level more than there may be
begin A\0
SREF 10 0
SNAME 18 6 @@@A
XY 16 3 0 0
ENDEL 17 0
SREF 10 0
SNAME 18 6 @@@A
XY 16 3 0 0
ENDEL 17 0
end
chain 22 SREF 10 0, next, XY 16 3 0 0, ENDEL 17 0, SREF 10 0, next, XY 16 3 0 0, ENDEL 17 0
bar 0 0 1 1
end
=> refused TooManyPoints 0
# arrays of ten by ten of a square
begin A\0
AREF 11 0
SNAME 18 6 @@@A
COLROW 19 2 0 10 0 10
XY 16 3 0 0 0 0 0 0
ENDEL 17 0
end
chain 12 AREF 11 0, next, COLROW 19 2 0 10 0 10, XY 16 3 0 0 0 0 0 0, ENDEL 17 0
bar 0 0 1 1
end
=> refused TooManyPoints 0
# the last refers to the top
begin A\0
SREF 10 0
SNAME 18 6 @@@A
XY 16 3 0 0
ENDEL 17 0
SREF 10 0
SNAME 18 6 @@@A
XY 16 3 0 0
ENDEL 17 0
end
chain 22 SREF 10 0, next, XY 16 3 0 0, ENDEL 17 0, SREF 10 0, next, XY 16 3 0 0, ENDEL 17 0
bar 0 0 1 1
SREF 10 0
SNAME 18 6 A\0
XY 16 3 0 0
ENDEL 17 0
end
=> refused Recursion 96
";

#[test]
fn placed_points_and_recursions_are_found_by_structure(rt: HostRuntime) -> Result<(), Fail> {
    all_hold(&rt, rt.alloc(), SPLIT_A, TOO_HIGH)
}
