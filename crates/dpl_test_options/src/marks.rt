//! Squares that markers fix to a mask.

use dpl_run::Status;
use dpl_test_runs::Content::{Masks, Text, Top};
use dpl_test_runs::Left::{Absent, Is};
use dpl_test_runs::{CHECK, Case, Run, SPLIT, all_hold};
use dpl_test_sample::Part::{self, Bar, Numbers, Record};
use std::test::*;

/// Splits with a rule of 30 and an overlap of 10 of layer 1, with markers on layers 7 and 8, and checks of what they leave with the same options.
static CASES: [Case; 10] = [
    Case {
        what: "two bars at the rule, of which the second is fixed to mask B",
        files: &[(
            "in",
            Top(&[&[
                Bar(1, [0, 0, 100, 20]),
                Bar(1, [0, 50, 100, 70]),
                Bar(7, [0, 50, 1, 51]),
            ]]),
        )],
        runs: &[
            Run {
                line: "dpl split --layer 1 --rule 30 --overlap 10 --mark-b 7 in out cert",
                status: Status::Done,
                said: &["done features 2 pieces 2 zones 0 stitches 0 a 1 b 1\n"],
                left: &[
                    (
                        "cert",
                        Is(Text(
                            "dpl 1\nrule 30 overlap 10\nfeatures 2 pieces 2 zones 0 stitches 0\npiece 0 A 0 0\npiece 1 B 0 50\nend\n",
                        )),
                    ),
                    ("out", Is(Masks(&[[0, 0, 100, 20]], &[[0, 50, 100, 70]]))),
                ],
            },
            Run {
                line: "dpl check --layer 1 --rule 30 --overlap 10 --mark-b 7 in out cert",
                status: Status::Done,
                said: &["valid masks stitches 0\n"],
                left: &[],
            },
        ],
    },
    Case {
        what: "two bars that are too close, and both fixed to mask A",
        files: &[(
            "in",
            Top(&[&[
                Bar(1, [0, 0, 100, 20]),
                Bar(1, [0, 49, 100, 69]),
                Bar(7, [0, 0, 1, 1]),
                Bar(7, [0, 49, 1, 50]),
            ]]),
        )],
        runs: &[
            Run {
                line: "dpl split --layer 1 --rule 30 --overlap 10 --mark-a 7 in out cert",
                status: Status::Conflict,
                said: &["conflict cycle 3\n"],
                left: &[
                    (
                        "cert",
                        Is(Text(
                            "dpl 1\nrule 30 overlap 10\nfeatures 2 pieces 2 zones 0\ncycle 3\nanchor B\npiece 0 0 0\npiece 1 0 49\nmarked 0 0\nnear 0 19 0 49\nmarked 0 49\nend\n",
                        )),
                    ),
                    ("out", Absent),
                ],
            },
            Run {
                line: "dpl check --layer 1 --rule 30 --overlap 10 --mark-a 7 in out cert",
                status: Status::Done,
                said: &["valid conflict cycle 3\n"],
                left: &[],
            },
        ],
    },
    Case {
        what: "a bar that is fixed to both masks",
        files: &[(
            "in",
            Top(&[&[Bar(1, [0, 0, 100, 20]), Bar(7, [0, 0, 1, 1])]]),
        )],
        runs: &[
            Run {
                line: "dpl split --layer 1 --rule 30 --overlap 10 --mark-a 7 --mark-b 7 in out cert",
                status: Status::Conflict,
                said: &["conflict cycle 3\n"],
                left: &[
                    (
                        "cert",
                        Is(Text(
                            "dpl 1\nrule 30 overlap 10\nfeatures 1 pieces 1 zones 0\ncycle 3\nanchor A\nanchor B\npiece 0 0 0\nanchors\nmarked 0 0\nmarked 0 0\nend\n",
                        )),
                    ),
                    ("out", Absent),
                ],
            },
            Run {
                line: "dpl check --layer 1 --rule 30 --overlap 10 --mark-a 7 --mark-b 7 in out cert",
                status: Status::Done,
                said: &["valid conflict cycle 3\n"],
                left: &[],
            },
        ],
    },
    Case {
        what: "a zone marked for mask A is dropped",
        files: &[(
            "in",
            Top(&[&[
                Bar(1, [0, 0, 158, 20]),
                Bar(1, [0, 40, 50, 60]),
                Bar(1, [108, 40, 158, 60]),
                Bar(7, [80, 5, 81, 6]),
            ]]),
        )],
        runs: &[
            Run {
                line: "dpl split --layer 1 --rule 30 --overlap 10 --mark-a 7 in out cert",
                status: Status::Done,
                said: &["done features 3 pieces 3 zones 0 stitches 0 a 1 b 2\n"],
                left: &[
                    (
                        "cert",
                        Is(Text(
                            "dpl 1\nrule 30 overlap 10\nfeatures 3 pieces 3 zones 0 stitches 0\npiece 0 A 0 0\npiece 1 B 0 40\npiece 2 B 108 40\nend\n",
                        )),
                    ),
                    (
                        "out",
                        Is(Masks(&[[0, 0, 158, 20]], &[[0, 40, 50, 60], [108, 40, 158, 60]])),
                    ),
                ],
            },
            Run {
                line: "dpl check --layer 1 --rule 30 --overlap 10 --mark-a 7 in out cert",
                status: Status::Done,
                said: &["valid masks stitches 0\n"],
                left: &[],
            },
        ],
    },
    Case {
        what: "a marker outside the layer fixes nothing",
        files: &[(
            "in",
            Top(&[&[Bar(1, [0, 0, 100, 20]), Bar(7, [0, 20, 100, 21])]]),
        )],
        runs: &[
            Run {
                line: "dpl split --layer 1 --rule 30 --overlap 10 --mark-b 7 in out cert",
                status: Status::Done,
                said: &["done features 1 pieces 1 zones 0 stitches 0 a 1 b 0\n"],
                left: &[
                    (
                        "cert",
                        Is(Text(
                            "dpl 1\nrule 30 overlap 10\nfeatures 1 pieces 1 zones 0 stitches 0\npiece 0 A 0 0\nend\n",
                        )),
                    ),
                    ("out", Is(Masks(&[[0, 0, 100, 20]], &[]))),
                ],
            },
            Run {
                line: "dpl check --layer 1 --rule 30 --overlap 10 --mark-b 7 in out cert",
                status: Status::Done,
                said: &["valid masks stitches 0\n"],
                left: &[],
            },
        ],
    },
    Case {
        what: "a zone marked for mask B is dropped",
        files: &[(
            "in",
            Top(&[&[
                Bar(1, [0, 0, 158, 20]),
                Bar(1, [0, 40, 50, 60]),
                Bar(1, [108, 40, 158, 60]),
                Bar(7, [80, 5, 81, 6]),
            ]]),
        )],
        runs: &[
            Run {
                line: "dpl split --layer 1 --rule 30 --overlap 10 --mark-b 7 in out cert",
                status: Status::Done,
                said: &["done features 3 pieces 3 zones 0 stitches 0 a 2 b 1\n"],
                left: &[
                    (
                        "cert",
                        Is(Text(
                            "dpl 1\nrule 30 overlap 10\nfeatures 3 pieces 3 zones 0 stitches 0\npiece 0 B 0 0\npiece 1 A 0 40\npiece 2 A 108 40\nend\n",
                        )),
                    ),
                    (
                        "out",
                        Is(Masks(&[[0, 40, 50, 60], [108, 40, 158, 60]], &[[0, 0, 158, 20]])),
                    ),
                ],
            },
            Run {
                line: "dpl check --layer 1 --rule 30 --overlap 10 --mark-b 7 in out cert",
                status: Status::Done,
                said: &["valid masks stitches 0\n"],
                left: &[],
            },
        ],
    },
    Case {
        what: "markers of both masks, on layers of their own",
        files: &[(
            "in",
            Top(&[&[
                Bar(1, [0, 0, 100, 20]),
                Bar(1, [0, 50, 100, 70]),
                Bar(7, [0, 50, 1, 51]),
                Bar(8, [0, 0, 1, 1]),
            ]]),
        )],
        runs: &[
            Run {
                line: "dpl split --layer 1 --rule 30 --overlap 10 --mark-a 7 --mark-b 8 in out cert",
                status: Status::Done,
                said: &["done features 2 pieces 2 zones 0 stitches 0 a 1 b 1\n"],
                left: &[
                    (
                        "cert",
                        Is(Text(
                            "dpl 1\nrule 30 overlap 10\nfeatures 2 pieces 2 zones 0 stitches 0\npiece 0 B 0 0\npiece 1 A 0 50\nend\n",
                        )),
                    ),
                    ("out", Is(Masks(&[[0, 50, 100, 70]], &[[0, 0, 100, 20]]))),
                ],
            },
            Run {
                line: "dpl check --layer 1 --rule 30 --overlap 10 --mark-a 7 --mark-b 8 in out cert",
                status: Status::Done,
                said: &["valid masks stitches 0\n"],
                left: &[],
            },
        ],
    },
    Case {
        what: "the layer marks itself",
        files: &[("in", Top(&[&[Bar(1, [0, 0, 100, 20])]]))],
        runs: &[
            Run {
                line: "dpl split --layer 1 --rule 30 --overlap 10 --mark-b 1 in out cert",
                status: Status::Done,
                said: &["done features 1 pieces 1 zones 0 stitches 0 a 0 b 1\n"],
                left: &[
                    (
                        "cert",
                        Is(Text(
                            "dpl 1\nrule 30 overlap 10\nfeatures 1 pieces 1 zones 0 stitches 0\npiece 0 B 0 0\nend\n",
                        )),
                    ),
                    ("out", Is(Masks(&[], &[[0, 0, 100, 20]]))),
                ],
            },
            Run {
                line: "dpl check --layer 1 --rule 30 --overlap 10 --mark-b 1 in out cert",
                status: Status::Done,
                said: &["valid masks stitches 0\n"],
                left: &[],
            },
        ],
    },
    Case {
        what: "a layer of markers without a shape",
        files: &[(
            "in",
            Top(&[&[
                Bar(1, [0, 0, 100, 20]),
                Bar(1, [0, 49, 100, 69]),
                Bar(7, [0, 0, 1, 1]),
                Bar(7, [0, 49, 1, 50]),
            ]]),
        )],
        runs: &[
            Run {
                line: "dpl split --layer 1 --rule 30 --overlap 10 --mark-a 9 in out cert",
                status: Status::Done,
                said: &["done features 2 pieces 2 zones 0 stitches 0 a 1 b 1\n"],
                left: &[
                    (
                        "cert",
                        Is(Text(
                            "dpl 1\nrule 30 overlap 10\nfeatures 2 pieces 2 zones 0 stitches 0\npiece 0 A 0 0\npiece 1 B 0 49\nend\n",
                        )),
                    ),
                    ("out", Is(Masks(&[[0, 0, 100, 20]], &[[0, 49, 100, 69]]))),
                ],
            },
            Run {
                line: "dpl check --layer 1 --rule 30 --overlap 10 --mark-a 9 in out cert",
                status: Status::Done,
                said: &["valid masks stitches 0\n"],
                left: &[],
            },
        ],
    },
    Case {
        what: "with a corner rule",
        files: &[(
            "in",
            Top(&[&[
                Bar(1, [0, 0, 10, 10]),
                Bar(1, [28, 33, 38, 43]),
                Bar(7, [28, 33, 29, 34]),
            ]]),
        )],
        runs: &[
            Run {
                line: "dpl split --layer 1 --rule 30 --overlap 10 --corner 29 --mark-b 7 in out cert",
                status: Status::Done,
                said: &["done features 2 pieces 2 zones 0 stitches 0 a 1 b 1\n"],
                left: &[
                    (
                        "cert",
                        Is(Text(
                            "dpl 2\nrule 30 overlap 10 corner 29\nfeatures 2 pieces 2 zones 0 stitches 0\npiece 0 A 0 0\npiece 1 B 28 33\nend\n",
                        )),
                    ),
                    ("out", Is(Masks(&[[0, 0, 10, 10]], &[[28, 33, 38, 43]]))),
                ],
            },
            Run {
                line: "dpl check --layer 1 --rule 30 --overlap 10 --corner 29 --mark-b 7 in out cert",
                status: Status::Done,
                said: &["valid masks stitches 0\n"],
                left: &[],
            },
        ],
    },
];

#[test]
fn marked_squares_are_on_their_mask(rt: HostRuntime) -> Result<(), Fail> {
    all_hold(&rt, rt.alloc(), &CASES)
}

static UNMARKED: [Case; 1] = [Case {
    what: "two bars that are too close, and both fixed to mask A",
    files: &[(
        "in",
        Top(&[&[
            Bar(1, [0, 0, 100, 20]),
            Bar(1, [0, 49, 100, 69]),
            Bar(7, [0, 0, 1, 1]),
            Bar(7, [0, 49, 1, 50]),
        ]]),
    )],
    runs: &[
        Run {
            line: "dpl split --layer 1 --rule 30 --overlap 10 --mark-a 7 in out cert",
            status: Status::Conflict,
            said: &["conflict cycle 3\n"],
            left: &[],
        },
        Run {
            line: CHECK,
            status: Status::CheckNo,
            said: &["no Cycle 0\n"],
            left: &[],
        },
    ],
}];

#[test]
fn an_anchor_is_wrong_without_marks(rt: HostRuntime) -> Result<(), Fail> {
    all_hold(&rt, rt.alloc(), &UNMARKED)
}

static OTHERS: [Case; 1] = [Case {
    what: "without markers both bars are on mask A",
    files: &[(
        "in",
        Top(&[&[
            Bar(1, [0, 0, 100, 20]),
            Bar(1, [0, 50, 100, 70]),
            Bar(7, [0, 50, 1, 51]),
        ]]),
    )],
    runs: &[
        Run {
            line: SPLIT,
            status: Status::Done,
            said: &["done features 2 pieces 2 zones 0 stitches 0 a 2 b 0\n"],
            left: &[],
        },
        Run {
            line: "dpl check --layer 1 --rule 30 --overlap 10 --mark-b 7 in out cert",
            status: Status::CheckNo,
            said: &["no Marked 0 50\n"],
            left: &[],
        },
        Run {
            line: "dpl check --layer 1 --rule 30 --overlap 10 --mark-a 7 in out cert",
            status: Status::Done,
            said: &["valid masks stitches 0\n"],
            left: &[],
        },
    ],
}];

#[test]
fn a_check_asks_for_its_own_markers(rt: HostRuntime) -> Result<(), Fail> {
    all_hold(&rt, rt.alloc(), &OTHERS)
}

static ELSEWHERE: [Case; 1] = [Case {
    what: "no square of layer 9 marks the bar",
    files: &[
        (
            "in",
            Top(&[&[Bar(1, [0, 0, 100, 20]), Bar(7, [0, 0, 1, 1])]]),
        ),
        (
            "cert",
            Text(
                "dpl 1\nrule 30 overlap 10\nfeatures 1 pieces 1 zones 0\ncycle 3\nanchor A\nanchor B\npiece 0 0 0\nanchors\nmarked 0 0\nmarked 0 0\nend\n",
            ),
        ),
    ],
    runs: &[Run {
        line: "dpl check --layer 1 --rule 30 --overlap 10 --mark-a 9 in out cert",
        status: Status::CheckNo,
        said: &["no Cycle 1\n"],
        left: &[],
    }],
}];

#[test]
fn a_marked_square_is_one_of_its_layer(rt: HostRuntime) -> Result<(), Fail> {
    all_hold(&rt, rt.alloc(), &ELSEWHERE)
}

/// One bar on layer 1. What stands behind it is at offset 162.
const BAR: [Part<'static>; 1] = [Bar(1, [0, 0, 100, 20])];

/// The records of a slanted boundary, which has 64 bytes.
const SLANT: Part<'static> = Numbers(16, &[0, 0, 100, 0, 101, 20, 0, 20, 0, 0]);

const ENDEL: Part<'static> = Record(17, 0, &[]);

const DATATYPE: Part<'static> = Record(14, 2, &[0, 0]);

const BOUNDARY: Part<'static> = Record(8, 0, &[]);

const ON_1: [Part<'static>; 5] = [BOUNDARY, Record(13, 2, &[0, 1]), DATATYPE, SLANT, ENDEL];

const ON_7: [Part<'static>; 5] = [BOUNDARY, Record(13, 2, &[0, 7]), DATATYPE, SLANT, ENDEL];

const ON_8: [Part<'static>; 5] = [BOUNDARY, Record(13, 2, &[0, 8]), DATATYPE, SLANT, ENDEL];

/// Layouts with faults of the layer and of its markers: those of the layer come first, and mask A's before mask B's.
static REFUSED: [Case; 5] = [
    Case {
        what: "markers of mask A",
        files: &[("in", Top(&[&BAR, &ON_7]))],
        runs: &[
            Run {
                line: "dpl check --layer 1 --rule 30 --overlap 10 --mark-a 7 in out cert",
                status: Status::Refused,
                said: &["refused in SlantedBoundary 162\n"],
                left: &[],
            },
            Run {
                line: "dpl split --layer 1 --rule 30 --overlap 10 --mark-a 7 in out cert",
                status: Status::Refused,
                said: &["refused SlantedBoundary 162\n"],
                left: &[
                    ("cert", Is(Text("dpl 1\nfault SlantedBoundary 162\nend\n"))),
                    ("out", Absent),
                ],
            },
        ],
    },
    Case {
        what: "markers of mask B",
        files: &[("in", Top(&[&BAR, &ON_7, &ON_8]))],
        runs: &[
            Run {
                line: "dpl check --layer 1 --rule 30 --overlap 10 --mark-b 8 in out cert",
                status: Status::Refused,
                said: &["refused in SlantedBoundary 226\n"],
                left: &[],
            },
            Run {
                line: "dpl split --layer 1 --rule 30 --overlap 10 --mark-b 8 in out cert",
                status: Status::Refused,
                said: &["refused SlantedBoundary 226\n"],
                left: &[
                    ("cert", Is(Text("dpl 1\nfault SlantedBoundary 226\nend\n"))),
                    ("out", Absent),
                ],
            },
        ],
    },
    Case {
        what: "the layer's fault is told, though it stands behind that of the markers",
        files: &[("in", Top(&[&BAR, &ON_7, &ON_1]))],
        runs: &[
            Run {
                line: "dpl check --layer 1 --rule 30 --overlap 10 --mark-a 7 in out cert",
                status: Status::Refused,
                said: &["refused in SlantedBoundary 226\n"],
                left: &[],
            },
            Run {
                line: "dpl split --layer 1 --rule 30 --overlap 10 --mark-a 7 in out cert",
                status: Status::Refused,
                said: &["refused SlantedBoundary 226\n"],
                left: &[
                    ("cert", Is(Text("dpl 1\nfault SlantedBoundary 226\nend\n"))),
                    ("out", Absent),
                ],
            },
        ],
    },
    Case {
        what: "that of mask A's markers is told, though it stands behind",
        files: &[("in", Top(&[&BAR, &ON_7, &ON_8]))],
        runs: &[
            Run {
                line: "dpl check --layer 1 --rule 30 --overlap 10 --mark-a 8 --mark-b 7 in out cert",
                status: Status::Refused,
                said: &["refused in SlantedBoundary 226\n"],
                left: &[],
            },
            Run {
                line: "dpl split --layer 1 --rule 30 --overlap 10 --mark-a 8 --mark-b 7 in out cert",
                status: Status::Refused,
                said: &["refused SlantedBoundary 226\n"],
                left: &[
                    ("cert", Is(Text("dpl 1\nfault SlantedBoundary 226\nend\n"))),
                    ("out", Absent),
                ],
            },
        ],
    },
    Case {
        what: "the same with the layers exchanged",
        files: &[("in", Top(&[&BAR, &ON_8, &ON_7]))],
        runs: &[
            Run {
                line: "dpl check --layer 1 --rule 30 --overlap 10 --mark-a 7 --mark-b 8 in out cert",
                status: Status::Refused,
                said: &["refused in SlantedBoundary 226\n"],
                left: &[],
            },
            Run {
                line: "dpl split --layer 1 --rule 30 --overlap 10 --mark-a 7 --mark-b 8 in out cert",
                status: Status::Refused,
                said: &["refused SlantedBoundary 226\n"],
                left: &[
                    ("cert", Is(Text("dpl 1\nfault SlantedBoundary 226\nend\n"))),
                    ("out", Absent),
                ],
            },
        ],
    },
];

#[test]
fn faults_of_markers_come_after_those_of_the_layer(rt: HostRuntime) -> Result<(), Fail> {
    all_hold(&rt, rt.alloc(), &REFUSED)
}
