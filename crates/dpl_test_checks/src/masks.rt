//! Masks where squares are marked, or whose certificate names a corner rule or has lines of gains.

use crate::cases::{Case, SPACING, all_hold};
use dpl_base::{Pt, Spacing};
use dpl_check::Verdict;
use std::test::*;

/// One feature, and a square of it and one outside it.
const ONE: &str = "0 0 100 20";

const INSIDE: &str = "40 10 41 11";

const OUTSIDE: &str = "200 10 201 11";

const ONE_ON_A: &str = "dpl 1
rule 30 overlap 10
features 1 pieces 1 zones 0 stitches 0
piece 0 A 0 0
end
";

/// Three features of which each is too close to the other two, on both masks, and a square of piece 5.
const CROWD: &str =
    "0 0 400 20, 0 40 50 60, 0 40 20 200, 0 180 190 200, 350 40 400 60, 380 40 400 200, 215 180 400 200";

const CROWD_A: &str = "0 0 400 20, 97 180 190 200";

const CROWD_B: &str =
    "0 40 50 60, 350 40 400 60, 0 60 20 180, 380 60 400 180, 0 180 107 200, 215 180 400 200";

const PIECE_5: &str = "390 150 391 151";

/// All lines of gains.
const GAINS: &str = "dpl 3
rule 30 overlap 10 corner 30
features 3 pieces 8 zones 5 stitches 1
gains 5
piece 0 A 0 0
piece 1 A 205 0
piece 2 B 0 40
piece 3 B 350 40
piece 4 B 0 125
piece 5 B 380 125
piece 6 A 107 180
piece 7 B 215 180
stitch 97 180 107 200 4 6
gain 0 0 2
gain 1 0 2
gain 4 1 1
gain 5 0 2
gain 6 1 1
end
";

/// The third line has other counts.
const OTHER_GAINS: &str = "dpl 3
rule 30 overlap 10 corner 30
features 3 pieces 8 zones 5 stitches 1
gains 5
piece 0 A 0 0
piece 1 A 205 0
piece 2 B 0 40
piece 3 B 350 40
piece 4 B 0 125
piece 5 B 380 125
piece 6 A 107 180
piece 7 B 215 180
stitch 97 180 107 200 4 6
gain 0 0 2
gain 1 0 2
gain 4 0 2
gain 5 0 2
gain 6 1 1
end
";

/// The second line has its counts exchanged.
const EXCHANGED: &str = "dpl 3
rule 30 overlap 10 corner 30
features 3 pieces 8 zones 5 stitches 1
gains 5
piece 0 A 0 0
piece 1 A 205 0
piece 2 B 0 40
piece 3 B 350 40
piece 4 B 0 125
piece 5 B 380 125
piece 6 A 107 180
piece 7 B 215 180
stitch 97 180 107 200 4 6
gain 0 0 2
gain 1 2 0
gain 4 1 1
gain 5 0 2
gain 6 1 1
end
";

/// All lines but that of piece 5's component.
const GAINS_BUT_5: &str = "dpl 3
rule 30 overlap 10 corner 30
features 3 pieces 8 zones 5 stitches 1
gains 4
piece 0 A 0 0
piece 1 A 205 0
piece 2 B 0 40
piece 3 B 350 40
piece 4 B 0 125
piece 5 B 380 125
piece 6 A 107 180
piece 7 B 215 180
stitch 97 180 107 200 4 6
gain 0 0 2
gain 1 0 2
gain 4 1 1
gain 6 1 1
end
";

/// A bar over three others, cut twice, so that it has three pieces.
const OVER: &str = "0 0 266 20, 0 40 50 60, 108 40 158 60, 216 40 266 60";

/// Its masks with a stitch that a flip of the left pieces would save.
const OVER_A: &str = "0 0 84 20, 108 40 158 60, 216 40 266 60";

const OVER_B: &str = "74 0 266 20, 0 40 50 60";

/// The lines of gains are right, and the first component's flip leaves a stitch fewer.
const SAVING: &str = "dpl 3
rule 30 overlap 10 corner 30
features 4 pieces 6 zones 2 stitches 1
gains 3
piece 0 A 0 0
piece 1 B 84 0
piece 2 B 192 0
piece 3 B 0 40
piece 4 A 108 40
piece 5 A 216 40
stitch 74 0 84 20 0 1
gain 0 1 0
gain 1 1 1
gain 2 0 1
end
";

/// A line more than there are components with zones to others.
const ONE_MORE: &str = "dpl 3
rule 30 overlap 10 corner 30
features 4 pieces 6 zones 2 stitches 1
gains 4
piece 0 A 0 0
piece 1 A 0 0
piece 2 A 0 0
piece 3 B 0 40
piece 4 A 108 40
piece 5 A 216 40
stitch 74 0 84 20 0 3
gain 0 0 1
gain 1 0 2
gain 2 0 1
gain 3 0 0
end
";

/// Certificates of masks.
static CASES: [Case; 11] = [
    Case {
        layer: OVER,
        a: OVER_A,
        b: OVER_B,
        mark_a: "",
        mark_b: "",
        asked: true,
        text: SAVING,
        verdict: Verdict::Gain { index: 0 },
    },
    Case {
        layer: OVER,
        a: OVER_A,
        b: OVER_B,
        mark_a: "",
        mark_b: "",
        asked: true,
        text: ONE_MORE,
        verdict: Verdict::Gain { index: 3 },
    },
    Case {
        layer: ONE,
        a: ONE,
        b: "",
        mark_a: INSIDE,
        mark_b: "",
        asked: true,
        text: ONE_ON_A,
        verdict: Verdict::Valid,
    },
    Case {
        layer: ONE,
        a: ONE,
        b: "",
        mark_a: "",
        mark_b: INSIDE,
        asked: true,
        text: ONE_ON_A,
        verdict: Verdict::Marked {
            at: Pt { x: 40, y: 10 },
        },
    },
    Case {
        layer: ONE,
        a: ONE,
        b: "",
        mark_a: INSIDE,
        mark_b: INSIDE,
        asked: true,
        text: ONE_ON_A,
        verdict: Verdict::Marked {
            at: Pt { x: 40, y: 10 },
        },
    },
    // A square outside the layer fixes nothing.
    Case {
        layer: ONE,
        a: ONE,
        b: "",
        mark_a: "",
        mark_b: OUTSIDE,
        asked: true,
        text: ONE_ON_A,
        verdict: Verdict::Valid,
    },
    // Lines of gains; a component with a marked piece has none.
    Case {
        layer: CROWD,
        a: CROWD_A,
        b: CROWD_B,
        mark_a: "",
        mark_b: "",
        asked: true,
        text: GAINS,
        verdict: Verdict::Valid,
    },
    Case {
        layer: CROWD,
        a: CROWD_A,
        b: CROWD_B,
        mark_a: "",
        mark_b: "",
        asked: true,
        text: OTHER_GAINS,
        verdict: Verdict::Gain { index: 2 },
    },
    Case {
        layer: CROWD,
        a: CROWD_A,
        b: CROWD_B,
        mark_a: "",
        mark_b: "",
        asked: true,
        text: EXCHANGED,
        verdict: Verdict::Gain { index: 1 },
    },
    Case {
        layer: CROWD,
        a: CROWD_A,
        b: CROWD_B,
        mark_a: "",
        mark_b: PIECE_5,
        asked: true,
        text: GAINS,
        verdict: Verdict::Gain { index: 3 },
    },
    Case {
        layer: CROWD,
        a: CROWD_A,
        b: CROWD_B,
        mark_a: "",
        mark_b: PIECE_5,
        asked: true,
        text: GAINS_BUT_5,
        verdict: Verdict::Valid,
    },
];

#[test]
fn marked_masks_are_checked(rt: HostRuntime) -> Result<(), Fail> {
    all_hold(rt.alloc(), &CASES, SPACING)
}

/// A certificate of version 1, which is for a corner rule that is the rule.
static VERSION_1: [Case; 1] = [Case {
    layer: ONE,
    a: ONE,
    b: "",
    mark_a: "",
    mark_b: "",
    asked: true,
    text: ONE_ON_A,
    verdict: Verdict::Rules {
        rule: 30,
        overlap: 10,
        corner: None,
    },
}];

#[test]
fn corner_rules_are_compared(rt: HostRuntime) -> Result<(), Fail> {
    let spacing = Spacing {
        rule: 30,
        corner: 29,
    };
    all_hold(rt.alloc(), &VERSION_1, spacing)
}
