//! Many layers of one file.

use dpl_host::Kind;
use dpl_run::{Status, USAGE};
use dpl_test_runs::Content::{self, Masks, Text, Top};
use dpl_test_runs::Left::{self, Absent, As, Is};
use dpl_test_runs::{BAR, Case, Run, all_hold, holds_where};
use dpl_test_sample::Part::{self, Bar, Numbers, Record};
use std::test::*;

/// Three squares on layer 1, each closer to each other one than the rule, and a bar on layer 2.
const LAYERS: [Part<'static>; 4] = [
    Bar(1, [0, 0, 10, 10]),
    Bar(1, [20, 0, 30, 10]),
    Bar(1, [10, 20, 20, 30]),
    Bar(2, BAR),
];

const ONE_CERT: &str =
    "dpl 1\nrule 30 overlap 10\nfeatures 3 pieces 3 zones 0\ncycle 3\npiece 0 0 0\npiece 1 20 0\npiece 2 10 20\nnear 0 0 20 0\nnear 20 0 10 20\nnear 10 20 0 0\nend\n";

const TWO_CERT: &str =
    "dpl 1\nrule 30 overlap 10\nfeatures 1 pieces 1 zones 0 stitches 0\npiece 0 A 0 0\nend\n";

/// What a split says of each of them.
const ONE: &str = "conflict cycle 3\n";

const TWO: &str = "done features 1 pieces 1 zones 0 stitches 0 a 1 b 0\n";

/// The file, and one where the masks of layer 1 would go.
const FILES: &[(&str, Content<'static>)] = &[("in", Top(&[&LAYERS])), ("p.1.gds", Text("before"))];

/// What a batch of both leaves.
const BOTH: &[(&str, Left<'static>)] = &[
    ("p.1.cert", Is(Text(ONE_CERT))),
    ("p.2.cert", Is(Text(TWO_CERT))),
    ("p.2.gds", Is(Masks(&[BAR], &[]))),
    ("p.1.gds", Is(Text("before"))),
];

static CASES: [Case; 3] = [
    Case {
        what: "in order",
        files: FILES,
        runs: &[Run {
            line: "dpl batch --rule 30 --overlap 10 in p 1 2",
            status: Status::Conflict,
            said: &["layer 1 ", ONE, "layer 2 ", TWO],
            left: BOTH,
        }],
    },
    Case {
        what: "in the other order",
        files: FILES,
        runs: &[Run {
            line: "dpl batch --rule 30 --overlap 10 in p 2 1",
            status: Status::Conflict,
            said: &["layer 2 ", TWO, "layer 1 ", ONE],
            left: BOTH,
        }],
    },
    Case {
        what: "with other tiles and workers",
        files: FILES,
        runs: &[Run {
            line: "dpl batch --rule 30 --overlap 10 --tile 1 in p 1 --workers 64 2",
            status: Status::Conflict,
            said: &["layer 1 ", ONE, "layer 2 ", TWO],
            left: BOTH,
        }],
    },
];

#[test]
fn each_layer_is_as_by_itself(rt: HostRuntime) -> Result<(), Fail> {
    all_hold(&rt, rt.alloc(), &CASES)
}

static TWICE: [Case; 1] = [Case {
    what: "layer 1",
    files: FILES,
    runs: &[Run {
        line: "dpl batch --rule 30 --overlap 10 in p 1 1",
        status: Status::Usage,
        said: &[USAGE],
        left: &[("p.1.cert", Absent)],
    }],
}];

#[test]
fn a_layer_is_named_once(rt: HostRuntime) -> Result<(), Fail> {
    all_hold(&rt, rt.alloc(), &TWICE)
}

static TRUNCATED: [Case; 1] = [Case {
    what: "no bytes",
    files: &[("in", Text("")), ("p.1.gds", Text("before"))],
    runs: &[Run {
        line: "dpl batch --rule 30 --overlap 10 in p 7 2",
        status: Status::Refused,
        said: &["layer 7 refused Truncated 0\nlayer 2 refused Truncated 0\n"],
        left: &[
            ("p.7.cert", Is(Text("dpl 1\nfault Truncated 0\nend\n"))),
            ("p.2.cert", Is(Text("dpl 1\nfault Truncated 0\nend\n"))),
            ("p.2.gds", Absent),
        ],
    }],
}];

#[test]
fn a_fault_of_the_bytes_is_said_of_each_layer(rt: HostRuntime) -> Result<(), Fail> {
    all_hold(&rt, rt.alloc(), &TRUNCATED)
}

static MISSING: [Case; 1] = [Case {
    what: "no file",
    files: &[],
    runs: &[Run {
        line: "dpl batch --rule 30 --overlap 10 in p 1 2",
        status: Status::ReadFault,
        said: &[],
        left: &[("p.1.cert", Absent)],
    }],
}];

#[test]
fn a_file_that_isnt_there_is_no_answer(rt: HostRuntime) -> Result<(), Fail> {
    all_hold(&rt, rt.alloc(), &MISSING)
}

/// A shape on layer 3 with an edge that isn't parallel to an axis, at offset 354 behind those of the other two.
const SLANTED: [Part<'static>; 6] = [
    Record(8, 0, &[]),
    Record(13, 2, &[0, 3]),
    Record(14, 2, &[0, 0]),
    Numbers(16, &[0, 0, 100, 0, 101, 20, 0, 20, 0, 0]),
    Record(17, 0, &[]),
    Bar(3, BAR),
];

/// What a split says of it, and of a layer without a shape.
const SLANT: &str = "refused SlantedBoundary 354\n";

const NONE: &str = "done features 0 pieces 0 zones 0 stitches 0 a 0 b 0\n";

/// A batch of a layer with a fault, one in conflict, one without a shape, and one that is done, and then a split of each alone.
static ALONE: [Case; 1] = [Case {
    what: "four layers",
    files: &[("in", Top(&[&LAYERS, &SLANTED]))],
    runs: &[
        Run {
            line: "dpl batch --rule 30 --overlap 10 in p 3 1 9 2",
            status: Status::Refused,
            said: &[
                "layer 3 ", SLANT, "layer 1 ", ONE, "layer 9 ", NONE, "layer 2 ", TWO,
            ],
            left: &[],
        },
        Run {
            line: "dpl split --layer 3 --rule 30 --overlap 10 in 3.gds 3.cert",
            status: Status::Refused,
            said: &[SLANT],
            left: &[("3.gds", As("p.3.gds")), ("3.cert", As("p.3.cert"))],
        },
        Run {
            line: "dpl split --layer 1 --rule 30 --overlap 10 in 1.gds 1.cert",
            status: Status::Conflict,
            said: &[ONE],
            left: &[("1.gds", As("p.1.gds")), ("1.cert", As("p.1.cert"))],
        },
        Run {
            line: "dpl split --layer 9 --rule 30 --overlap 10 in 9.gds 9.cert",
            status: Status::Done,
            said: &[NONE],
            left: &[("9.gds", As("p.9.gds")), ("9.cert", As("p.9.cert"))],
        },
        Run {
            line: "dpl split --layer 2 --rule 30 --overlap 10 in 2.gds 2.cert",
            status: Status::Done,
            said: &[TWO],
            left: &[("2.gds", As("p.2.gds")), ("2.cert", As("p.2.cert"))],
        },
    ],
}];

#[test]
fn each_layer_has_the_files_of_its_split(rt: HostRuntime) -> Result<(), Fail> {
    all_hold(&rt, rt.alloc(), &ALONE)
}

static FAILED: Case = Case {
    what: "the third call that creates fails",
    files: &[("in", Top(&[&LAYERS]))],
    runs: &[Run {
        line: "dpl batch --rule 30 --overlap 10 in p 2 1",
        status: Status::WriteFault,
        said: &[],
        left: &[("p.2.cert", Is(Text(TWO_CERT))), ("p.1.cert", Absent)],
    }],
};

#[test]
fn a_failed_write_leaves_the_layers_before(rt: HostRuntime) -> Result<(), Fail> {
    holds_where(&rt, rt.alloc(), &FAILED, &[(Kind::Create, 2)])
}
