//! Cycles with anchors.

use crate::cases::{Case, SPACING, all_hold};
use dpl_check::Verdict;
use std::test::*;

/// Two features closer than the rule, and two squares of theirs.
const TWO: &str = "0 0 100 20, 0 49 100 69";

const BOTH: &str = "0 0 1 1, 0 49 1 50";

/// One feature, and a square of it.
const ONE: &str = "0 0 100 20";

const CORNER: &str = "0 0 1 1";

/// Both features are on mask A.
const TWO_ON_A: &str = "dpl 1
rule 30 overlap 10
features 2 pieces 2 zones 0
cycle 3
anchor B
piece 0 0 0
piece 1 0 49
marked 0 0
near 0 19 0 49
marked 0 49
end
";

/// The same by the anchor of the other mask, and by a square that isn't marked.
const OTHER_ANCHOR: &str = "dpl 1
rule 30 overlap 10
features 2 pieces 2 zones 0
cycle 3
anchor A
piece 0 0 0
piece 1 0 49
marked 0 0
near 0 19 0 49
marked 0 49
end
";

const NOT_MARKED: &str = "dpl 1
rule 30 overlap 10
features 2 pieces 2 zones 0
cycle 3
anchor B
piece 0 0 0
piece 1 0 49
marked 0 0
near 0 19 0 49
marked 1 49
end
";

/// One feature is on both masks.
const ON_BOTH: &str = "dpl 1
rule 30 overlap 10
features 1 pieces 1 zones 0
cycle 3
anchor A
anchor B
piece 0 0 0
anchors
marked 0 0
marked 0 0
end
";

/// An anchor stands twice.
const TWICE: &str = "dpl 1
rule 30 overlap 10
features 1 pieces 1 zones 0
cycle 3
anchor A
anchor A
piece 0 0 0
anchors
marked 0 0
marked 0 0
end
";

/// Certificates of conflicts, each with marks that are asked for or not.
static CYCLES: [Case; 6] = [
    Case {
        layer: TWO,
        a: "",
        b: "",
        mark_a: BOTH,
        mark_b: "",
        asked: true,
        text: TWO_ON_A,
        verdict: Verdict::Valid,
    },
    Case {
        layer: TWO,
        a: "",
        b: "",
        mark_a: BOTH,
        mark_b: "",
        asked: false,
        text: TWO_ON_A,
        verdict: Verdict::Cycle { place: 0 },
    },
    Case {
        layer: TWO,
        a: "",
        b: "",
        mark_a: BOTH,
        mark_b: "",
        asked: true,
        text: OTHER_ANCHOR,
        verdict: Verdict::Cycle { place: 0 },
    },
    Case {
        layer: TWO,
        a: "",
        b: "",
        mark_a: BOTH,
        mark_b: "",
        asked: true,
        text: NOT_MARKED,
        verdict: Verdict::Cycle { place: 2 },
    },
    Case {
        layer: ONE,
        a: "",
        b: "",
        mark_a: CORNER,
        mark_b: CORNER,
        asked: true,
        text: ON_BOTH,
        verdict: Verdict::Valid,
    },
    Case {
        layer: ONE,
        a: "",
        b: "",
        mark_a: CORNER,
        mark_b: CORNER,
        asked: true,
        text: TWICE,
        verdict: Verdict::Cycle { place: 1 },
    },
];

#[test]
fn cycles_with_anchors_are_checked(rt: HostRuntime) -> Result<(), Fail> {
    all_hold(rt.alloc(), &CYCLES, SPACING)
}
