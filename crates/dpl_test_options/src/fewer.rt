//! Fewer stitches.

use dpl_run::{Status, USAGE};
use dpl_test_runs::Content::{Bars, Masks, Text, Texts, Top};
use dpl_test_runs::Left::{As, Is};
use dpl_test_runs::{CHECK, Case, Run, all_hold};
use dpl_test_sample::Part::Bar;
use dpl_test_sample::Rectangle;
use std::test::*;

const FEWER: &str = "dpl split --layer 1 --rule 30 --overlap 10 --fewer in out cert";

/// The same without the flag, into other files.
const PLAIN: &str = "dpl split --layer 1 --rule 30 --overlap 10 in plain told";

/// Three features that no two masks keep apart unless they are cut.
const CROWD: [Rectangle; 7] = [
    [0, 0, 400, 20],
    [0, 40, 50, 60],
    [0, 40, 20, 200],
    [0, 180, 190, 200],
    [350, 40, 400, 60],
    [380, 40, 400, 200],
    [215, 180, 400, 200],
];

const CROWD_A: [Rectangle; 2] = [[0, 0, 400, 20], [97, 180, 190, 200]];

const CROWD_B: [Rectangle; 6] = [
    [0, 40, 50, 60],
    [350, 40, 400, 60],
    [0, 60, 20, 180],
    [380, 60, 400, 180],
    [0, 180, 107, 200],
    [215, 180, 400, 200],
];

const CROWD_SAID: &str = "done features 3 pieces 8 zones 5 stitches 1 a 2 b 6\n";

/// The certificate of their masks, up to the gains of the component of piece 4.
const CROWD_CERT: &str =
    "dpl 3\nrule 30 overlap 10 corner 30\nfeatures 3 pieces 8 zones 5 stitches 1\ngains 5\npiece 0 A 0 0\npiece 1 A 205 0\npiece 2 B 0 40\npiece 3 B 350 40\npiece 4 B 0 125\npiece 5 B 380 125\npiece 6 A 107 180\npiece 7 B 215 180\nstitch 97 180 107 200 4 6\ngain 0 0 2\ngain 1 0 2\n";

const CROWD_END: &str = "gain 5 0 2\ngain 6 1 1\nend\n";

static LEFT: [Case; 1] = [Case {
    what: "no flip saves a stitch here",
    files: &[("in", Bars(&CROWD))],
    runs: &[
        Run {
            line: PLAIN,
            status: Status::Done,
            said: &[CROWD_SAID],
            left: &[],
        },
        Run {
            line: FEWER,
            status: Status::Done,
            said: &[CROWD_SAID],
            left: &[
                ("out", As("plain")),
                ("cert", Is(Texts(&[CROWD_CERT, "gain 4 1 1\n", CROWD_END]))),
            ],
        },
        Run {
            line: CHECK,
            status: Status::Done,
            said: &["valid masks stitches 1\n"],
            left: &[],
        },
    ],
}];

#[test]
fn the_gains_that_are_left_are_told(rt: HostRuntime) -> Result<(), Fail> {
    all_hold(&rt, rt.alloc(), &LEFT)
}

static WRONG: [Case; 1] = [Case {
    what: "piece 4 has another gain",
    files: &[
        ("in", Bars(&CROWD)),
        ("out", Masks(&CROWD_A, &CROWD_B)),
        ("cert", Texts(&[CROWD_CERT, "gain 4 0 2\n", CROWD_END])),
    ],
    runs: &[Run {
        line: CHECK,
        status: Status::CheckNo,
        said: &["no Gain 2\n"],
        left: &[],
    }],
}];

#[test]
fn wrong_gains_are_found(rt: HostRuntime) -> Result<(), Fail> {
    all_hold(&rt, rt.alloc(), &WRONG)
}

/// Layers of which fewer stitches are asked for and found.
static SAVINGS: [Case; 2] = [
    // The component of piece 0 comes before the one at its zone, which agrees with one component and differs from it.
    Case {
        what: "a component beside two others",
        files: &[(
            "in",
            Bars(&[
                [0, 0, 80, 20],
                [220, 0, 300, 20],
                [40, 40, 140, 60],
                [160, 40, 200, 60],
            ]),
        )],
        runs: &[
            Run {
                line: PLAIN,
                status: Status::Done,
                said: &["done features 4 pieces 6 zones 2 stitches 1 a 3 b 2\n"],
                left: &[],
            },
            Run {
                line: FEWER,
                status: Status::Done,
                said: &["done features 4 pieces 6 zones 2 stitches 0 a 2 b 2\n"],
                left: &[
                    (
                        "cert",
                        Is(Text(
                            "dpl 3\nrule 30 overlap 10 corner 30\nfeatures 4 pieces 6 zones 2 stitches 0\ngains 3\npiece 0 B 0 0\npiece 1 A 220 0\npiece 2 A 40 40\npiece 3 A 121 40\npiece 4 B 160 40\npiece 5 B 188 40\ngain 0 0 1\ngain 1 0 1\ngain 3 0 2\nend\n",
                        )),
                    ),
                    (
                        "out",
                        Is(Masks(
                            &[[220, 0, 300, 20], [40, 40, 140, 60]],
                            &[[0, 0, 80, 20], [160, 40, 200, 60]],
                        )),
                    ),
                ],
            },
            Run {
                line: CHECK,
                status: Status::Done,
                said: &["valid masks stitches 0\n"],
                left: &[],
            },
        ],
    },
    // Two zones differ and one agrees at the component of piece 0; only once that is flipped the one of piece 7 saves a stitch.
    Case {
        what: "a component that only saves once another is flipped",
        files: &[(
            "in",
            Bars(&[
                [200, 0, 220, 20],
                [0, 40, 20, 60],
                [100, 40, 220, 60],
                [0, 80, 120, 100],
                [200, 80, 320, 100],
                [0, 120, 20, 140],
                [100, 120, 220, 140],
                [300, 120, 320, 140],
                [0, 160, 120, 180],
            ]),
        )],
        runs: &[
            Run {
                line: PLAIN,
                status: Status::Done,
                said: &["done features 9 pieces 14 zones 5 stitches 2 a 6 b 5\n"],
                left: &[],
            },
            Run {
                line: FEWER,
                status: Status::Done,
                said: &["done features 9 pieces 14 zones 5 stitches 0 a 5 b 4\n"],
                left: &[
                    (
                        "cert",
                        Is(Text(
                            "dpl 3\nrule 30 overlap 10 corner 30\nfeatures 9 pieces 14 zones 5 stitches 0\ngains 4\npiece 0 B 200 0\npiece 1 A 0 40\npiece 2 A 100 40\npiece 3 A 165 40\npiece 4 B 0 80\npiece 5 B 65 80\npiece 6 B 200 80\npiece 7 B 265 80\npiece 8 A 0 120\npiece 9 A 100 120\npiece 10 A 165 120\npiece 11 A 300 120\npiece 12 B 0 160\npiece 13 B 65 160\ngain 0 0 3\ngain 1 0 2\ngain 2 0 4\ngain 7 0 1\nend\n",
                        )),
                    ),
                    (
                        "out",
                        Is(Masks(
                            &[
                                [0, 40, 20, 60],
                                [100, 40, 220, 60],
                                [0, 120, 20, 140],
                                [100, 120, 220, 140],
                                [300, 120, 320, 140],
                            ],
                            &[
                                [200, 0, 220, 20],
                                [0, 80, 120, 100],
                                [200, 80, 320, 100],
                                [0, 160, 120, 180],
                            ],
                        )),
                    ),
                ],
            },
            Run {
                line: CHECK,
                status: Status::Done,
                said: &["valid masks stitches 0\n"],
                left: &[],
            },
        ],
    },
];

#[test]
fn single_flips_save_stitches(rt: HostRuntime) -> Result<(), Fail> {
    all_hold(&rt, rt.alloc(), &SAVINGS)
}

/// The layer that loses both stitches above, with a marker on the component of piece 0.
static HELD: [Case; 1] = [Case {
    what: "the marked component isn't flipped",
    files: &[(
        "in",
        Top(&[&[
            Bar(1, [200, 0, 220, 20]),
            Bar(1, [0, 40, 20, 60]),
            Bar(1, [100, 40, 220, 60]),
            Bar(1, [0, 80, 120, 100]),
            Bar(1, [200, 80, 320, 100]),
            Bar(1, [0, 120, 20, 140]),
            Bar(1, [100, 120, 220, 140]),
            Bar(1, [300, 120, 320, 140]),
            Bar(1, [0, 160, 120, 180]),
            Bar(7, [200, 0, 220, 20]),
        ]]),
    )],
    runs: &[
        Run {
            line: "dpl split --layer 1 --rule 30 --overlap 10 --mark-a 7 --fewer in out cert",
            status: Status::Done,
            said: &["done features 9 pieces 14 zones 5 stitches 2 a 6 b 5\n"],
            left: &[(
                "cert",
                Is(Text(
                    "dpl 3\nrule 30 overlap 10 corner 30\nfeatures 9 pieces 14 zones 5 stitches 2\ngains 3\npiece 0 A 200 0\npiece 1 A 0 40\npiece 2 A 100 40\npiece 3 B 165 40\npiece 4 B 0 80\npiece 5 B 65 80\npiece 6 A 200 80\npiece 7 A 265 80\npiece 8 A 0 120\npiece 9 A 100 120\npiece 10 B 165 120\npiece 11 B 300 120\npiece 12 B 0 160\npiece 13 B 65 160\nstitch 155 40 165 60 2 3\nstitch 155 120 165 140 9 10\ngain 1 0 2\ngain 2 2 2\ngain 7 0 1\nend\n",
                )),
            )],
        },
        Run {
            line: "dpl check --layer 1 --rule 30 --overlap 10 --mark-a 7 in out cert",
            status: Status::Done,
            said: &["valid masks stitches 2\n"],
            left: &[],
        },
    ],
}];

#[test]
fn marked_components_are_not_flipped(rt: HostRuntime) -> Result<(), Fail> {
    all_hold(&rt, rt.alloc(), &HELD)
}

static CORNERS: [Case; 2] = [
    Case {
        what: "the corner rule is named, and there are no zones",
        files: &[("in", Bars(&[[0, 0, 10, 10], [28, 33, 38, 43]]))],
        runs: &[Run {
            line: "dpl split --layer 1 --rule 30 --overlap 10 --corner 29 --fewer in out cert",
            status: Status::Done,
            said: &["done features 2 pieces 2 zones 0 stitches 0 a 2 b 0\n"],
            left: &[(
                "cert",
                Is(Text(
                    "dpl 3\nrule 30 overlap 10 corner 29\nfeatures 2 pieces 2 zones 0 stitches 0\ngains 0\npiece 0 A 0 0\npiece 1 A 28 33\nend\n",
                )),
            )],
        }],
    },
    Case {
        what: "a conflict is told as ever",
        files: &[(
            "in",
            Bars(&[[0, 0, 10, 10], [20, 0, 30, 10], [10, 20, 20, 30]]),
        )],
        runs: &[Run {
            line: "dpl split --layer 1 --rule 30 --overlap 10 --corner 29 --fewer in out cert",
            status: Status::Conflict,
            said: &["conflict cycle 3\n"],
            left: &[(
                "cert",
                Is(Text(
                    "dpl 2\nrule 30 overlap 10 corner 29\nfeatures 3 pieces 3 zones 0\ncycle 3\npiece 0 0 0\npiece 1 20 0\npiece 2 10 20\nnear 0 0 20 0\nnear 20 0 10 20\nnear 10 20 0 0\nend\n",
                )),
            )],
        }],
    },
];

#[test]
fn fewer_stitches_go_with_a_corner_rule(rt: HostRuntime) -> Result<(), Fail> {
    all_hold(&rt, rt.alloc(), &CORNERS)
}

static CHECKS: [Case; 1] = [Case {
    what: "a check has no such flag",
    files: &[("in", Bars(&CROWD))],
    runs: &[Run {
        line: "dpl check --layer 1 --rule 30 --overlap 10 --fewer in out cert",
        status: Status::Usage,
        said: &[USAGE],
        left: &[],
    }],
}];

#[test]
fn a_check_is_not_asked_for_fewer_stitches(rt: HostRuntime) -> Result<(), Fail> {
    all_hold(&rt, rt.alloc(), &CHECKS)
}
