//! A layer that is edited before it is split.

use dpl_host::Kind;
use dpl_run::{Status, USAGE};
use dpl_test_runs::Content::{self, Bars, Edits, Masks, Text};
use dpl_test_runs::Left::{self, Absent, As, Is};
use dpl_test_runs::{BAR, Case, Run, all_hold, answer, holds_where};
use dpl_test_sample::{bars, host};
use std::test::*;

/// An edited split of layer 1 with a rule of 30 and an overlap of 10.
const EDIT: &str = "dpl edit --layer 1 --rule 30 --overlap 10 in edits out cert";

/// A split, with the same rules, of what the layer is after the edits.
const AFTER: &str = "dpl split --layer 1 --rule 30 --overlap 10 after masks told";

/// What is in the files that are written before that.
const MASKS_BEFORE: Content<'static> = Text("masks before");

const CERT_BEFORE: Content<'static> = Text("cert before");

/// A layer of one bar, and the files where the masks and the certificate go.
const IN: (&str, Content<'static>) = ("in", Bars(&[BAR]));

const OUT: (&str, Content<'static>) = ("out", MASKS_BEFORE);

const CERT: (&str, Content<'static>) = ("cert", CERT_BEFORE);

/// The files where those of the layer after the edits go.
const MASKS: (&str, Content<'static>) = ("masks", MASKS_BEFORE);

const TOLD: (&str, Content<'static>) = ("told", CERT_BEFORE);

/// The split of the layer after the edits has left just what the edits left.
const ALIKE: &[(&str, Left<'static>)] = &[("masks", As("out")), ("told", As("cert"))];

/// Two features, one on each mask.
const TWO: &[Run<'static>] = &[
    Run {
        line: EDIT,
        status: Status::Done,
        said: &["done features 2 pieces 2 zones 0 stitches 0 a 1 b 1\n"],
        left: &[],
    },
    Run {
        line: AFTER,
        status: Status::Done,
        said: &["done features 2 pieces 2 zones 0 stitches 0 a 1 b 1\n"],
        left: ALIKE,
    },
];

/// Two features on mask A.
const TWO_ON_A: &[Run<'static>] = &[
    Run {
        line: EDIT,
        status: Status::Done,
        said: &["done features 2 pieces 2 zones 0 stitches 0 a 2 b 0\n"],
        left: &[],
    },
    Run {
        line: AFTER,
        status: Status::Done,
        said: &["done features 2 pieces 2 zones 0 stitches 0 a 2 b 0\n"],
        left: ALIKE,
    },
];

/// What is said of one feature.
const ONE_SAID: &str = "done features 1 pieces 1 zones 0 stitches 0 a 1 b 0\n";

const ONE: &[Run<'static>] = &[
    Run {
        line: EDIT,
        status: Status::Done,
        said: &[ONE_SAID],
        left: &[],
    },
    Run {
        line: AFTER,
        status: Status::Done,
        said: &[ONE_SAID],
        left: ALIKE,
    },
];

const NONE: &[Run<'static>] = &[
    Run {
        line: EDIT,
        status: Status::Done,
        said: &["done features 0 pieces 0 zones 0 stitches 0 a 0 b 0\n"],
        left: &[],
    },
    Run {
        line: AFTER,
        status: Status::Done,
        said: &["done features 0 pieces 0 zones 0 stitches 0 a 0 b 0\n"],
        left: ALIKE,
    },
];

/// Three features in conflict.
const CYCLE: &[Run<'static>] = &[
    Run {
        line: EDIT,
        status: Status::Conflict,
        said: &["conflict cycle 3\n"],
        left: &[],
    },
    Run {
        line: AFTER,
        status: Status::Conflict,
        said: &["conflict cycle 3\n"],
        left: ALIKE,
    },
];

/// Edits, and a split of what the layer is after them.
static CASES: [Case; 10] = [
    Case {
        what: "a second bar one unit closer than the rule",
        files: &[
            IN,
            ("edits", Text("add 0 49 100 69\n")),
            ("after", Bars(&[BAR, [0, 49, 100, 69]])),
            OUT,
            CERT,
            MASKS,
            TOLD,
        ],
        runs: TWO,
    },
    Case {
        what: "what was added is taken away",
        files: &[
            IN,
            ("edits", Text("add 0 49 100 69\nremove 0 49 100 69\n")),
            ("after", Bars(&[BAR])),
            OUT,
            CERT,
            MASKS,
            TOLD,
        ],
        runs: ONE,
    },
    Case {
        what: "in the other order it stays",
        files: &[
            IN,
            ("edits", Text("remove 0 49 100 69\nadd 0 49 100 69\n")),
            ("after", Bars(&[BAR, [0, 49, 100, 69]])),
            OUT,
            CERT,
            MASKS,
            TOLD,
        ],
        runs: TWO,
    },
    Case {
        what: "one of three features in conflict goes",
        files: &[
            (
                "in",
                Bars(&[[0, 0, 400, 20], [0, 40, 190, 60], [215, 40, 400, 60]]),
            ),
            ("edits", Text("remove 0 40 190 60\n")),
            ("after", Bars(&[[0, 0, 400, 20], [215, 40, 400, 60]])),
            OUT,
            CERT,
            MASKS,
            TOLD,
        ],
        runs: TWO,
    },
    Case {
        what: "two of three become one",
        files: &[
            (
                "in",
                Bars(&[[0, 0, 10, 10], [20, 0, 30, 10], [10, 20, 20, 30]]),
            ),
            ("edits", Text("add 0 0 30 10\n")),
            ("after", Bars(&[[0, 0, 30, 10], [10, 20, 20, 30]])),
            OUT,
            CERT,
            MASKS,
            TOLD,
        ],
        runs: TWO,
    },
    Case {
        what: "a square joins two in conflict with a third",
        files: &[
            ("in", Bars(&[[0, 0, 10, 10], [20, 0, 30, 10]])),
            ("edits", Text("add 10 20 20 30\n")),
            (
                "after",
                Bars(&[[0, 0, 10, 10], [20, 0, 30, 10], [10, 20, 20, 30]]),
            ),
            OUT,
            CERT,
            MASKS,
            TOLD,
        ],
        runs: CYCLE,
    },
    Case {
        what: "no edits",
        files: &[
            IN,
            ("edits", Text("")),
            ("after", Bars(&[BAR])),
            OUT,
            CERT,
            MASKS,
            TOLD,
        ],
        runs: ONE,
    },
    Case {
        what: "what is there is added, what isn't there is removed",
        files: &[
            IN,
            (
                "edits",
                Text("add 10 5 20 15\nremove -1000000000 -1000000000 -5 1000000000\n"),
            ),
            ("after", Bars(&[BAR])),
            OUT,
            CERT,
            MASKS,
            TOLD,
        ],
        runs: ONE,
    },
    Case {
        what: "a bar is cut in two, far enough apart, and one half is drawn again",
        files: &[
            IN,
            (
                "edits",
                Text("remove 20 -7 80 20\nremove 0 0 20 20\nadd 0 0 20 20\n"),
            ),
            ("after", Bars(&[[0, 0, 20, 20], [80, 0, 100, 20]])),
            OUT,
            CERT,
            MASKS,
            TOLD,
        ],
        runs: TWO_ON_A,
    },
    Case {
        what: "nothing is left",
        files: &[
            ("in", Bars(&[BAR, [0, 49, 100, 69]])),
            ("edits", Text("remove 0 0 100 69\n")),
            ("after", Bars(&[])),
            OUT,
            CERT,
            MASKS,
            TOLD,
        ],
        runs: NONE,
    },
];

#[test]
fn an_edited_layer_is_split(rt: HostRuntime) -> Result<(), Fail> {
    all_hold(&rt, rt.alloc(), &CASES)
}

static OPTIONS: [Case; 1] = [Case {
    what: "with every option",
    files: &[
        ("in", Bars(&[[0, 0, 10, 10]])),
        ("edits", Text("add 28 33 38 43\n")),
        ("after", Bars(&[[0, 0, 10, 10], [28, 33, 38, 43]])),
        OUT,
        CERT,
        MASKS,
        TOLD,
    ],
    runs: &[
        Run {
            line: "dpl edit --layer 1 --rule 30 --overlap 10 --corner 10 --datatype 0 --top TOP --tile 1 --a 7 --b 8 in edits out cert",
            status: Status::Done,
            said: &["done features 2 pieces 2 zones 0 stitches 0 a 2 b 0\n"],
            left: &[],
        },
        Run {
            line: "dpl split --layer 1 --rule 30 --overlap 10 --corner 10 --datatype 0 --top TOP --a 7 --b 8 after masks told",
            status: Status::Done,
            said: &["done features 2 pieces 2 zones 0 stitches 0 a 2 b 0\n"],
            left: ALIKE,
        },
    ],
}];

#[test]
fn an_edit_keeps_to_its_options(rt: HostRuntime) -> Result<(), Fail> {
    all_hold(&rt, rt.alloc(), &OPTIONS)
}

/// No file is touched.
const BEFORE: &[(&str, Left<'static>)] = &[("out", Is(MASKS_BEFORE)), ("cert", Is(CERT_BEFORE))];

/// The first bad line of the edits is the first or the second.
const FIRST: &[Run<'static>] = &[Run {
    line: EDIT,
    status: Status::Refused,
    said: &["refused edits Line 1\n"],
    left: BEFORE,
}];

const SECOND: &[Run<'static>] = &[Run {
    line: EDIT,
    status: Status::Refused,
    said: &["refused edits Line 2\n"],
    left: BEFORE,
}];

/// Texts that list no edits.
static BAD: [Case; 16] = [
    Case {
        what: "no width",
        files: &[IN, ("edits", Text("add 0 0 0 5\n")), OUT, CERT],
        runs: FIRST,
    },
    Case {
        what: "no height",
        files: &[IN, ("edits", Text("add 0 0 5 0\n")), OUT, CERT],
        runs: FIRST,
    },
    Case {
        what: "no end of the line",
        files: &[IN, ("edits", Text("add 0 0 5 5")), OUT, CERT],
        runs: FIRST,
    },
    Case {
        what: "an empty line",
        files: &[IN, ("edits", Text("\n")), OUT, CERT],
        runs: FIRST,
    },
    Case {
        what: "an empty line behind one",
        files: &[IN, ("edits", Text("add 0 0 5 5\n\n")), OUT, CERT],
        runs: SECOND,
    },
    Case {
        what: "a space behind a number",
        files: &[
            IN,
            ("edits", Text("add 0 0 5 5\nremove 0 0 5 5 \n")),
            OUT,
            CERT,
        ],
        runs: SECOND,
    },
    Case {
        what: "three numbers",
        files: &[
            IN,
            ("edits", Text("add 0 0 5 5\nremove 0 0 5\n")),
            OUT,
            CERT,
        ],
        runs: SECOND,
    },
    Case {
        what: "five numbers",
        files: &[
            IN,
            ("edits", Text("add 0 0 5 5\nremove 0 0 5 5 5\n")),
            OUT,
            CERT,
        ],
        runs: SECOND,
    },
    Case {
        what: "a capital letter",
        files: &[IN, ("edits", Text("add 0 0 5 5\nAdd 0 0 5 5\n")), OUT, CERT],
        runs: SECOND,
    },
    Case {
        what: "a sign before a zero",
        files: &[IN, ("edits", Text("add -0 0 5 5\n")), OUT, CERT],
        runs: FIRST,
    },
    Case {
        what: "two zeros",
        files: &[IN, ("edits", Text("add 0 00 5 5\n")), OUT, CERT],
        runs: FIRST,
    },
    Case {
        what: "a plus sign",
        files: &[IN, ("edits", Text("add 0 0 +5 5\n")), OUT, CERT],
        runs: FIRST,
    },
    Case {
        what: "above the range",
        files: &[IN, ("edits", Text("add 0 0 5 1000000001\n")), OUT, CERT],
        runs: FIRST,
    },
    Case {
        what: "below the range",
        files: &[IN, ("edits", Text("add 0 -1000000001 5 5\n")), OUT, CERT],
        runs: FIRST,
    },
    Case {
        what: "a carriage return",
        files: &[IN, ("edits", Text("add 0 0 5 5\r\n")), OUT, CERT],
        runs: FIRST,
    },
    Case {
        what: "corners exchanged",
        files: &[
            IN,
            ("edits", Text("remove 5 0 0 5\nadd 0 0 5 5\n")),
            OUT,
            CERT,
        ],
        runs: FIRST,
    },
];

#[test]
fn a_text_that_lists_no_edits_is_refused(rt: HostRuntime) -> Result<(), Fail> {
    all_hold(&rt, rt.alloc(), &BAD)
}

static MANY: [Case; 4] = [
    Case {
        what: "one more",
        files: &[IN, ("edits", Edits(100_001, "")), OUT, CERT],
        runs: &[Run {
            line: EDIT,
            status: Status::Refused,
            said: &["refused edits Line 100001\n"],
            left: BEFORE,
        }],
    },
    Case {
        what: "a bad line behind them",
        files: &[IN, ("edits", Edits(100_000, "add")), OUT, CERT],
        runs: &[Run {
            line: EDIT,
            status: Status::Refused,
            said: &["refused edits Line 100001\n"],
            left: BEFORE,
        }],
    },
    Case {
        what: "a bad line as the last",
        files: &[
            IN,
            ("edits", Edits(99_999, "add\nadd 0 0 1 1\n")),
            OUT,
            CERT,
        ],
        runs: &[Run {
            line: EDIT,
            status: Status::Refused,
            said: &["refused edits Line 100000\n"],
            left: BEFORE,
        }],
    },
    Case {
        what: "a hundred thousand",
        files: &[IN, ("edits", Edits(100_000, "")), OUT, CERT],
        runs: &[Run {
            line: EDIT,
            status: Status::Done,
            said: &[ONE_SAID],
            left: &[],
        }],
    },
];

#[test]
fn a_hundred_thousand_edits_are_made(rt: HostRuntime) -> Result<(), Fail> {
    all_hold(&rt, rt.alloc(), &MANY)
}

#[test]
fn edits_past_the_limit_are_refused(rt: HostRuntime) -> Result<(), Fail> {
    let alloc = rt.alloc();
    let file = bars(alloc, &[BAR])?;
    let text = vec![in alloc; 0u8; 268_435_457]?;
    let files = vec![in alloc; ("in", file), ("edits", text)]?;
    let mut host = host(alloc, files, 1_000_000_000, Vec::new(alloc))?;
    assert_eq!(rt; answer(&rt, alloc, EDIT, &mut host)?, Status::Refused);
    assert_eq!(rt;
        host.said(),
        b"refused edits TooLarge 268435456\n".as_slice()
    );
    assert!(rt; host.file("out") == None && host.file("cert") == None);
    Ok(())
}

/// A layer, no layer, no edits, and a certificate.
const FILES: &[(&str, Content<'static>)] = &[IN, ("bad", Text("")), ("edits", Text("")), CERT];

/// Edits that aren't read or can't be; CERT stands as before but where the layout is refused.
static UNREAD: [Case; 6] = [
    Case {
        what: "the layout is refused",
        files: FILES,
        runs: &[Run {
            line: "dpl edit --layer 1 --rule 30 --overlap 10 bad none out cert",
            status: Status::Refused,
            said: &["refused Truncated 0\n"],
            left: &[
                ("cert", Is(Text("dpl 1\nfault Truncated 0\nend\n"))),
                ("out", Absent),
            ],
        }],
    },
    Case {
        what: "there are no edits",
        files: FILES,
        runs: &[Run {
            line: "dpl edit --layer 1 --rule 30 --overlap 10 in none out cert",
            status: Status::ReadFault,
            said: &[],
            left: &[("cert", Is(CERT_BEFORE)), ("out", Absent)],
        }],
    },
    Case {
        what: "there is no layout",
        files: FILES,
        runs: &[Run {
            line: "dpl edit --layer 1 --rule 30 --overlap 10 none edits out cert",
            status: Status::ReadFault,
            said: &[],
            left: &[("cert", Is(CERT_BEFORE)), ("out", Absent)],
        }],
    },
    Case {
        what: "the edits would be written",
        files: FILES,
        runs: &[Run {
            line: "dpl edit --layer 1 --rule 30 --overlap 10 in edits out edits",
            status: Status::Usage,
            said: &[USAGE],
            left: &[("cert", Is(CERT_BEFORE)), ("out", Absent)],
        }],
    },
    Case {
        what: "a corner rule above the rule",
        files: FILES,
        runs: &[Run {
            line: "dpl edit --layer 1 --rule 30 --overlap 10 --corner 31 in edits out cert",
            status: Status::Usage,
            said: &[USAGE],
            left: &[("cert", Is(CERT_BEFORE)), ("out", Absent)],
        }],
    },
    Case {
        what: "it has one worker",
        files: FILES,
        runs: &[Run {
            line: "dpl edit --layer 1 --rule 30 --overlap 10 --workers 4 in edits out cert",
            status: Status::Usage,
            said: &[USAGE],
            left: &[("cert", Is(CERT_BEFORE)), ("out", Absent)],
        }],
    },
];

#[test]
fn edits_are_read_behind_a_layer_alone(rt: HostRuntime) -> Result<(), Fail> {
    all_hold(&rt, rt.alloc(), &UNREAD)
}

static FAILED: Case = Case {
    what: "the second call that appends fails",
    files: &[IN, ("edits", Text("add 0 49 100 69\n"))],
    runs: &[Run {
        line: EDIT,
        status: Status::WriteFault,
        said: &[],
        left: &[
            ("out", Is(Masks(&[BAR], &[[0, 49, 100, 69]]))),
            ("cert", Is(Text(""))),
        ],
    }],
};

#[test]
fn a_failed_write_leaves_the_masks(rt: HostRuntime) -> Result<(), Fail> {
    holds_where(&rt, rt.alloc(), &FAILED, &[(Kind::Append, 1)])
}
