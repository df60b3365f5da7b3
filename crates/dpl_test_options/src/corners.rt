//! A corner rule of its own.

use dpl_run::{Status, USAGE};
use dpl_test_runs::Content::{Bars, Masks, Text, Texts};
use dpl_test_runs::Left::{Absent, Is};
use dpl_test_runs::{BAR, Case, ONE_BAR, Run, all_hold};
use dpl_test_sample::Rectangle;
use std::test::*;

/// Two squares across a corner, 18 and 23 units apart: 853 is no less than 29 times 29, and less than 30 times 30.
const ACROSS: [Rectangle; 2] = [[0, 0, 10, 10], [28, 33, 38, 43]];

/// Splits with a rule of 30, an overlap of 10 and a corner rule, and checks of what they leave.
static CASES: [Case; 5] = [
    Case {
        what: "squares across a corner, at the corner rule",
        files: &[("in", Bars(&ACROSS))],
        runs: &[
            Run {
                line: "dpl split --layer 1 --rule 30 --overlap 10 --corner 29 in out cert",
                status: Status::Done,
                said: &["done features 2 pieces 2 zones 0 stitches 0 a 2 b 0\n"],
                left: &[
                    (
                        "cert",
                        Is(Text(
                            "dpl 2\nrule 30 overlap 10 corner 29\nfeatures 2 pieces 2 zones 0 stitches 0\npiece 0 A 0 0\npiece 1 A 28 33\nend\n",
                        )),
                    ),
                    ("out", Is(Masks(&ACROSS, &[]))),
                ],
            },
            Run {
                line: "dpl check --layer 1 --rule 30 --overlap 10 --corner 29 in out cert",
                status: Status::Done,
                said: &["valid masks stitches 0\n"],
                left: &[],
            },
        ],
    },
    Case {
        what: "at the rule it is as if it weren't given",
        files: &[("in", Bars(&ACROSS))],
        runs: &[
            Run {
                line: "dpl split --layer 1 --rule 30 --overlap 10 --corner 30 in out cert",
                status: Status::Done,
                said: &["done features 2 pieces 2 zones 0 stitches 0 a 1 b 1\n"],
                left: &[
                    (
                        "cert",
                        Is(Text(
                            "dpl 1\nrule 30 overlap 10\nfeatures 2 pieces 2 zones 0 stitches 0\npiece 0 A 0 0\npiece 1 B 28 33\nend\n",
                        )),
                    ),
                    ("out", Is(Masks(&[[0, 0, 10, 10]], &[[28, 33, 38, 43]]))),
                ],
            },
            Run {
                line: "dpl check --layer 1 --rule 30 --overlap 10 in out cert",
                status: Status::Done,
                said: &["valid masks stitches 0\n"],
                left: &[],
            },
        ],
    },
    Case {
        what: "bars that face one another are kept apart by the rule",
        files: &[("in", Bars(&[[0, 0, 100, 20], [0, 49, 100, 69]]))],
        runs: &[
            Run {
                line: "dpl split --layer 1 --rule 30 --overlap 10 --corner 1 in out cert",
                status: Status::Done,
                said: &["done features 2 pieces 2 zones 0 stitches 0 a 1 b 1\n"],
                left: &[
                    (
                        "cert",
                        Is(Text(
                            "dpl 2\nrule 30 overlap 10 corner 1\nfeatures 2 pieces 2 zones 0 stitches 0\npiece 0 A 0 0\npiece 1 B 0 49\nend\n",
                        )),
                    ),
                    ("out", Is(Masks(&[[0, 0, 100, 20]], &[[0, 49, 100, 69]]))),
                ],
            },
            Run {
                line: "dpl check --layer 1 --rule 30 --overlap 10 --corner 1 in out cert",
                status: Status::Done,
                said: &["valid masks stitches 0\n"],
                left: &[],
            },
        ],
    },
    Case {
        what: "the stretch of eleven columns gets longer, and so has a zone",
        files: &[(
            "in",
            Bars(&[[0, 0, 157, 20], [0, 40, 50, 60], [107, 40, 157, 60]]),
        )],
        runs: &[
            Run {
                line: "dpl split --layer 1 --rule 30 --overlap 10 --corner 25 in out cert",
                status: Status::Done,
                said: &["done features 3 pieces 4 zones 1 stitches 0 a 1 b 2\n"],
                left: &[
                    (
                        "cert",
                        Is(Text(
                            "dpl 2\nrule 30 overlap 10 corner 25\nfeatures 3 pieces 4 zones 1 stitches 0\npiece 0 A 0 0\npiece 1 A 83 0\npiece 2 B 0 40\npiece 3 B 107 40\nend\n",
                        )),
                    ),
                    (
                        "out",
                        Is(Masks(&[[0, 0, 157, 20]], &[[0, 40, 50, 60], [107, 40, 157, 60]])),
                    ),
                ],
            },
            Run {
                line: "dpl check --layer 1 --rule 30 --overlap 10 --corner 25 in out cert",
                status: Status::Done,
                said: &["valid masks stitches 0\n"],
                left: &[],
            },
        ],
    },
    Case {
        what: "three squares that face one another",
        files: &[(
            "in",
            Bars(&[[0, 0, 10, 10], [20, 0, 30, 10], [10, 20, 20, 30]]),
        )],
        runs: &[
            Run {
                line: "dpl split --layer 1 --rule 30 --overlap 10 --corner 29 in out cert",
                status: Status::Conflict,
                said: &["conflict cycle 3\n"],
                left: &[
                    (
                        "cert",
                        Is(Text(
                            "dpl 2\nrule 30 overlap 10 corner 29\nfeatures 3 pieces 3 zones 0\ncycle 3\npiece 0 0 0\npiece 1 20 0\npiece 2 10 20\nnear 0 0 20 0\nnear 20 0 10 20\nnear 10 20 0 0\nend\n",
                        )),
                    ),
                    ("out", Absent),
                ],
            },
            Run {
                line: "dpl check --layer 1 --rule 30 --overlap 10 --corner 29 in out cert",
                status: Status::Done,
                said: &["valid conflict cycle 3\n"],
                left: &[],
            },
        ],
    },
];

#[test]
fn corners_go_by_the_corner_rule(rt: HostRuntime) -> Result<(), Fail> {
    all_hold(&rt, rt.alloc(), &CASES)
}

/// Checks of one bar, on mask A, by a certificate of other rules.
static OTHERS: [Case; 2] = [
    Case {
        what: "the corner rule of the certificate is the rule",
        files: &[
            ("in", Bars(&[BAR])),
            ("out", Masks(&[BAR], &[])),
            ("cert", Texts(&["dpl 1\nrule 30 overlap 10\n", ONE_BAR])),
        ],
        runs: &[Run {
            line: "dpl check --layer 1 --rule 30 --overlap 10 --corner 29 in out cert",
            status: Status::CheckNo,
            said: &["no Rules 30 10\n"],
            left: &[],
        }],
    },
    Case {
        what: "the corner rule of the words is the rule",
        files: &[
            ("in", Bars(&[BAR])),
            ("out", Masks(&[BAR], &[])),
            (
                "cert",
                Texts(&["dpl 2\nrule 30 overlap 10 corner 29\n", ONE_BAR]),
            ),
        ],
        runs: &[Run {
            line: "dpl check --layer 1 --rule 30 --overlap 10 in out cert",
            status: Status::CheckNo,
            said: &["no Rules 30 10 29\n"],
            left: &[],
        }],
    },
];

#[test]
fn a_certificate_is_of_its_corner_rule(rt: HostRuntime) -> Result<(), Fail> {
    all_hold(&rt, rt.alloc(), &OTHERS)
}

static ABOVE: [Case; 2] = [
    Case {
        what: "of a split",
        files: &[("in", Bars(&ACROSS))],
        runs: &[Run {
            line: "dpl split --layer 1 --rule 30 --overlap 10 --corner 31 in out cert",
            status: Status::Usage,
            said: &[USAGE],
            left: &[("cert", Absent)],
        }],
    },
    Case {
        what: "of a check",
        files: &[("in", Bars(&ACROSS))],
        runs: &[Run {
            line: "dpl check --layer 1 --rule 30 --overlap 10 --corner 31 in out cert",
            status: Status::Usage,
            said: &[USAGE],
            left: &[("cert", Absent)],
        }],
    },
];

#[test]
fn a_corner_rule_above_the_rule_is_no_command(rt: HostRuntime) -> Result<(), Fail> {
    all_hold(&rt, rt.alloc(), &ABOVE)
}
