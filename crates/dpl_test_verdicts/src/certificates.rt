//! Texts that are no certificate, and the line at which they are refused.

use crate::verdicts::{Check, ends_so};
use dpl_run::Status;
use dpl_test_runs::{BAR, CHECK, ONE_BAR};
use std::test::*;

const HEAD: &str = "dpl 1\nrule 30 overlap 10\n";

const COUNTS: &str = "features 1 pieces 1 zones 0 stitches 0\n";

/// A text in parts, and what is said of it.
static TEXTS: [(&[&str], &str); 18] = [
    (&[""], "refused cert Line 1\n"),
    (
        &["dpl 01\nrule 30 overlap 10\n", ONE_BAR],
        "refused cert Line 1\n",
    ),
    (
        &["dpl 4\nrule 30 overlap 10 corner 29\n", ONE_BAR],
        "refused cert Line 1\n",
    ),
    (
        &["dpl  1\nrule 30 overlap 10\n", ONE_BAR],
        "refused cert Line 1\n",
    ),
    (
        &["dpl 1\nrule 0 overlap 10\n", ONE_BAR],
        "refused cert Line 2\n",
    ),
    (
        &["dpl 1\nrule 1000001 overlap 10\n", ONE_BAR],
        "refused cert Line 2\n",
    ),
    (
        &["dpl 1\nrule +30 overlap 10\n", ONE_BAR],
        "refused cert Line 2\n",
    ),
    // A count may be any number of 64 bits; then more lines of pieces are due.
    (
        &[
            HEAD,
            "features 1 pieces 18446744073709551615 zones 0 stitches 0\npiece 0 A 0 0\nend\n",
        ],
        "refused cert Line 5\n",
    ),
    (
        &[
            HEAD,
            "features 1 pieces 18446744073709551616 zones 0 stitches 0\npiece 0 A 0 0\nend\n",
        ],
        "refused cert Line 3\n",
    ),
    // Pieces are numbered from 0, and on a mask each.
    (
        &[HEAD, COUNTS, "piece 1 A 0 0\nend\n"],
        "refused cert Line 4\n",
    ),
    (
        &[HEAD, COUNTS, "piece 0 C 0 0\nend\n"],
        "refused cert Line 4\n",
    ),
    (
        &[HEAD, COUNTS, "piece 0 A -0 0\nend\n"],
        "refused cert Line 4\n",
    ),
    (
        &[HEAD, COUNTS, "piece 0 A 1000000001 0\nend\n"],
        "refused cert Line 4\n",
    ),
    // A cycle is odd and has three pieces at least.
    (
        &[HEAD, "features 1 pieces 1 zones 0\ncycle 4\n"],
        "refused cert Line 4\n",
    ),
    (
        &[HEAD, "features 1 pieces 1 zones 0\ncycle 1\n"],
        "refused cert Line 4\n",
    ),
    // The text ends before or in its last line, or goes on behind it.
    (&[HEAD, COUNTS, "piece 0 A 0 0\n"], "refused cert Line 5\n"),
    (
        &[HEAD, COUNTS, "piece 0 A 0 0\nend"],
        "refused cert Line 5\n",
    ),
    (
        &[HEAD, COUNTS, "piece 0 A 0 0\nend\n\n"],
        "refused cert Line 6\n",
    ),
];

#[test]
fn certificates_are_refused_at_their_line(rt: HostRuntime) -> Result<(), Fail> {
    for &(cert, line) in &TEXTS {
        let check = Check {
            layer: &[BAR],
            masks: None,
            cert,
            words: CHECK,
            status: Status::Refused,
            line,
        };
        assert!(rt; ends_so(&rt, rt.alloc(), &check)?, "at {line}");
    }
    Ok(())
}
