//! What is said of masks and of a conflict.

use dpl_host::{Failing, MemHost};
use dpl_run::Status;
use dpl_test_runs::{CHECK, ONE_BAR, SPLIT, host_of_layer, host_with, says, text};
use dpl_test_sample::{Rectangle, bars, masks};
use std::alloc::{AllocError, Global};
use std::sync::Wait;
use std::test::*;
use std::thread::Threads;

/// A check: a layer with its masks, which may have no file, the parts of its certificate, and what is said of them.
#[derive(Clone, Copy)]
pub(crate) struct Check {
    pub(crate) layer: &'static [Rectangle],
    pub(crate) masks: Option<[&'static [Rectangle]; 2]>,
    pub(crate) cert: &'static [&'static str],
    pub(crate) words: &'static str,
    pub(crate) status: Status,
    pub(crate) line: &'static str,
}

/// A host with the files of a check, of which a call moves `step` bytes at most, and the listed calls fail.
pub(crate) fn host_of(
    alloc: Global,
    check: &Check,
    step: usize,
    failing: &[Failing],
) -> Result<MemHost, AllocError> {
    let layer = bars(alloc, check.layer)?;
    let cert = text(alloc, check.cert)?;
    let (layer, cert) = (("in", layer.as_slice()), ("cert", cert.as_slice()));
    let Some(both) = check.masks else {
        return host_with(alloc, &[layer, cert], step, failing);
    };
    let out = masks(alloc, both[0], both[1])?;
    host_with(
        alloc,
        &[layer, cert, ("out", out.as_slice())],
        step,
        failing,
    )
}

/// Whether a check ends so.
pub(crate) fn ends_so<R: Threads + Wait + Sync>(
    rt: &R,
    alloc: Global,
    check: &Check,
) -> Result<bool, AllocError> {
    let mut host = host_of(alloc, check, 4096, &[])?;
    says(rt, alloc, check.words, &mut host, check.status, check.line)
}

const BAR: [Rectangle; 1] = [[0, 0, 100, 20]];

/// One unit closer than the rule.
const BARS: [Rectangle; 2] = [[0, 0, 100, 20], [0, 49, 100, 69]];

/// Three features of which each is too close to the other two.
const CROWD: [Rectangle; 7] = [
    [0, 0, 400, 20],
    [0, 40, 50, 60],
    [0, 40, 20, 200],
    [0, 180, 190, 200],
    [350, 40, 400, 60],
    [380, 40, 400, 200],
    [215, 180, 400, 200],
];

const CROWD_A: [Rectangle; 2] = [[0, 0, 400, 20], [97, 180, 190, 200]];

const CROWD_B: [Rectangle; 6] = [
    [0, 40, 50, 60],
    [350, 40, 400, 60],
    [0, 60, 20, 180],
    [380, 60, 400, 180],
    [0, 180, 107, 200],
    [215, 180, 400, 200],
];

const HEAD: &str = "dpl 1\nrule 30 overlap 10\n";

const TWO_BARS: &str =
    "features 2 pieces 2 zones 0 stitches 0\npiece 0 A 0 0\npiece 1 B 0 49\nend\n";

const CROWD_COUNTS: &str = "features 3 pieces 8 zones 5 stitches ";

const CROWD_PIECES: &str =
    "piece 0 A 0 0\npiece 1 A 205 0\npiece 2 B 0 40\npiece 3 B 350 40\npiece 4 B 0 125\npiece 5 B 380 125\npiece 6 A 107 180\npiece 7 B 215 180\n";

const CROWD_STITCH: &str = "stitch 97 180 107 200 4 6\n";

const CROWD_HEAD_3: &str =
    "dpl 3\nrule 30 overlap 10 corner 30\nfeatures 3 pieces 8 zones 5 stitches 1\n";

/// The gains of the first four of its five components.
const CROWD_GAINS: &str = "gain 0 0 2\ngain 1 0 2\ngain 4 1 1\ngain 5 0 2\n";

const LEFT: [Rectangle; 1] = [[0, 0, 60, 20]];

const RIGHT: [Rectangle; 1] = [[50, 0, 100, 20]];

const ONE_STITCH: &str = "features 1 pieces 2 zones 1 stitches 1\npiece 0 A 0 0\n";

static CASES: [Check; 25] = [
    // A certificate that names a corner rule is for another one than `check` asks for.
    Check {
        layer: &BAR,
        masks: Some([&BAR, &[]]),
        cert: &["dpl 2\nrule 30 overlap 10 corner 29\n", ONE_BAR],
        words: CHECK,
        status: Status::CheckNo,
        line: "no Rules 30 10 29\n",
    },
    Check {
        layer: &BAR,
        masks: Some([&BAR, &[]]),
        cert: &[
            "dpl 3\nrule 30 overlap 10 corner 29\nfeatures 1 pieces 1 zones 0 stitches 0\ngains 0\n",
            "piece 0 A 0 0\nend\n",
        ],
        words: CHECK,
        status: Status::CheckNo,
        line: "no Rules 30 10 29\n",
    },
    Check {
        layer: &BAR,
        masks: Some([&BAR, &[]]),
        cert: &[HEAD, ONE_BAR],
        words: CHECK,
        status: Status::Done,
        line: "valid masks stitches 0\n",
    },
    Check {
        layer: &BAR,
        masks: Some([&BAR, &[]]),
        cert: &[HEAD, ONE_BAR],
        words: "dpl check --layer 1 --rule 31 --overlap 10 in out cert",
        status: Status::CheckNo,
        line: "no Rules 30 10\n",
    },
    Check {
        layer: &BAR,
        masks: Some([&BAR, &[]]),
        cert: &["dpl 1\nfault AngleNotRight 202\nend\n"],
        words: CHECK,
        status: Status::CheckNo,
        line: "no WasFault AngleNotRight 202\n",
    },
    Check {
        layer: &BAR,
        masks: Some([&BAR, &[[0, 49, 100, 69]]]),
        cert: &[HEAD, TWO_BARS],
        words: CHECK,
        status: Status::CheckNo,
        line: "no Counts 1 1 0\n",
    },
    Check {
        layer: &BAR,
        masks: Some([&[], &[]]),
        cert: &[HEAD, ONE_BAR],
        words: CHECK,
        status: Status::CheckNo,
        line: "no Cover 0 0\n",
    },
    Check {
        layer: &BAR,
        masks: Some([&BAR, &[]]),
        cert: &[
            HEAD,
            "features 1 pieces 1 zones 0 stitches 0\npiece 0 B 0 0\nend\n",
        ],
        words: CHECK,
        status: Status::CheckNo,
        line: "no Piece 0\n",
    },
    Check {
        layer: &BARS,
        masks: Some([&BARS, &[]]),
        cert: &[HEAD, TWO_BARS],
        words: CHECK,
        status: Status::CheckNo,
        line: "no SpacingA 0 19 0 49\n",
    },
    Check {
        layer: &CROWD,
        masks: Some([&CROWD_A, &CROWD_B]),
        cert: &[
            HEAD,
            CROWD_COUNTS,
            "1\n",
            CROWD_PIECES,
            "stitch 97 180 107 200 4 6\nend\n",
        ],
        words: CHECK,
        status: Status::Done,
        line: "valid masks stitches 1\n",
    },
    Check {
        layer: &CROWD,
        masks: Some([&CROWD_A, &CROWD_B]),
        cert: &[HEAD, CROWD_COUNTS, "0\n", CROWD_PIECES, "end\n"],
        words: CHECK,
        status: Status::CheckNo,
        line: "no Overlap 97 180\n",
    },
    Check {
        layer: &CROWD,
        masks: Some([&CROWD_A, &CROWD_B]),
        cert: &[
            HEAD,
            CROWD_COUNTS,
            "1\n",
            CROWD_PIECES,
            "stitch 97 180 108 200 4 6\nend\n",
        ],
        words: CHECK,
        status: Status::CheckNo,
        line: "no Stitch 0\n",
    },
    Check {
        layer: &CROWD,
        masks: Some([&CROWD_A, &CROWD_B]),
        cert: &[
            HEAD,
            CROWD_COUNTS,
            "1\n",
            CROWD_PIECES,
            "stitch 97 180 106 200 4 6\nend\n",
        ],
        words: CHECK,
        status: Status::CheckNo,
        line: "no Overlap 106 180\n",
    },
    Check {
        layer: &BAR,
        masks: Some([&BAR, &[]]),
        cert: &["dpl 01\nrule 30 overlap 10\n", ONE_BAR],
        words: CHECK,
        status: Status::Refused,
        line: "refused cert Line 1\n",
    },
    // As many squares as the layer, and other ones; and more squares.
    Check {
        layer: &BAR,
        masks: Some([&[[1, 0, 101, 20]], &[]]),
        cert: &[HEAD, ONE_BAR],
        words: CHECK,
        status: Status::CheckNo,
        line: "no Cover 0 0\n",
    },
    Check {
        layer: &BAR,
        masks: Some([&BARS, &[]]),
        cert: &[HEAD, ONE_BAR],
        words: CHECK,
        status: Status::CheckNo,
        line: "no Cover 0 49\n",
    },
    Check {
        layer: &BARS,
        masks: Some([&[], &BARS]),
        cert: &[HEAD, TWO_BARS],
        words: CHECK,
        status: Status::CheckNo,
        line: "no SpacingB 0 19 0 49\n",
    },
    // Another tool's stitch: as long as the overlap, longer than the masks have it, shorter, and between pieces of one letter.
    Check {
        layer: &BAR,
        masks: Some([&LEFT, &RIGHT]),
        cert: &[
            HEAD,
            ONE_STITCH,
            "piece 1 B 60 0\nstitch 50 0 60 20 0 1\nend\n",
        ],
        words: CHECK,
        status: Status::Done,
        line: "valid masks stitches 1\n",
    },
    Check {
        layer: &BAR,
        masks: Some([&LEFT, &RIGHT]),
        cert: &[
            HEAD,
            ONE_STITCH,
            "piece 1 B 60 0\nstitch 50 0 61 20 0 1\nend\n",
        ],
        words: CHECK,
        status: Status::CheckNo,
        line: "no Stitch 0\n",
    },
    Check {
        layer: &BAR,
        masks: Some([&LEFT, &RIGHT]),
        cert: &[
            HEAD,
            ONE_STITCH,
            "piece 1 B 60 0\nstitch 50 0 59 20 0 1\nend\n",
        ],
        words: CHECK,
        status: Status::CheckNo,
        line: "no Overlap 59 0\n",
    },
    Check {
        layer: &BAR,
        masks: Some([&LEFT, &RIGHT]),
        cert: &[
            HEAD,
            ONE_STITCH,
            "piece 1 A 0 1\nstitch 50 0 60 20 0 1\nend\n",
        ],
        words: CHECK,
        status: Status::CheckNo,
        line: "no Stitch 0\n",
    },
    // Lines of gains: all, one missing, one of another component's numbers, and those of other zones.
    Check {
        layer: &CROWD,
        masks: Some([&CROWD_A, &CROWD_B]),
        cert: &[
            CROWD_HEAD_3,
            "gains 5\n",
            CROWD_PIECES,
            CROWD_STITCH,
            CROWD_GAINS,
            "gain 6 1 1\nend\n",
        ],
        words: CHECK,
        status: Status::Done,
        line: "valid masks stitches 1\n",
    },
    Check {
        layer: &CROWD,
        masks: Some([&CROWD_A, &CROWD_B]),
        cert: &[
            CROWD_HEAD_3,
            "gains 4\n",
            CROWD_PIECES,
            CROWD_STITCH,
            CROWD_GAINS,
            "end\n",
        ],
        words: CHECK,
        status: Status::CheckNo,
        line: "no Gain 4\n",
    },
    Check {
        layer: &CROWD,
        masks: Some([&CROWD_A, &CROWD_B]),
        cert: &[
            CROWD_HEAD_3,
            "gains 5\n",
            CROWD_PIECES,
            CROWD_STITCH,
            CROWD_GAINS,
            "gain 6 0 2\nend\n",
        ],
        words: CHECK,
        status: Status::CheckNo,
        line: "no Gain 4\n",
    },
    Check {
        layer: &CROWD,
        masks: Some([&CROWD_A, &CROWD_B]),
        cert: &[
            "dpl 3\nrule 30 overlap 10 corner 30\nfeatures 3 pieces 8 zones 4 stitches 1\ngains 4\n",
            CROWD_PIECES,
            CROWD_STITCH,
            CROWD_GAINS,
            "end\n",
        ],
        words: CHECK,
        status: Status::CheckNo,
        line: "no Gain 0\n",
    },
];

#[test]
fn masks_are_checked(rt: HostRuntime) -> Result<(), Fail> {
    for check in &CASES {
        assert!(rt; ends_so(&rt, rt.alloc(), check)?, "at {}", check.line);
    }
    Ok(())
}

/// Three squares, each two closer than the rule.
const SQUARES: [Rectangle; 3] = [[0, 0, 10, 10], [20, 0, 30, 10], [10, 20, 20, 30]];

/// The lines of their cycle, the lines of a key that isn't piece 1's least square, and of a square that isn't piece 2's.
const CYCLE: &str =
    "cycle 3\npiece 0 0 0\npiece 1 20 0\npiece 2 10 20\nnear 0 0 20 0\nnear 20 0 10 20\nnear 10 20 0 0\nend\n";

const OTHER_KEY: &str =
    "cycle 3\npiece 0 0 0\npiece 1 20 1\npiece 2 10 20\nnear 0 0 20 0\nnear 20 0 10 20\nnear 10 20 0 0\nend\n";

const OTHER_NEAR: &str =
    "cycle 3\npiece 0 0 0\npiece 1 20 0\npiece 2 10 20\nnear 0 0 20 0\nnear 20 0 10 20\nnear 10 19 0 0\nend\n";

const SQUARES_COUNTS: &str = "features 3 pieces 3 zones 0\n";

/// The lines of a cycle with an anchor, where no marks are asked for.
const ANCHORED: &str =
    "cycle 3\npiece 0 0 0\npiece 1 20 0\nanchor A\nnear 0 0 20 0\nmarked 20 0\nmarked 0 0\nend\n";

/// Checks of cycles.
static CYCLES: [Check; 5] = [
    Check {
        layer: &SQUARES,
        masks: None,
        cert: &[HEAD, SQUARES_COUNTS, CYCLE],
        words: CHECK,
        status: Status::Done,
        line: "valid conflict cycle 3\n",
    },
    Check {
        layer: &SQUARES,
        masks: None,
        cert: &[HEAD, SQUARES_COUNTS, OTHER_KEY],
        words: CHECK,
        status: Status::CheckNo,
        line: "no Cycle 1\n",
    },
    Check {
        layer: &SQUARES,
        masks: None,
        cert: &[HEAD, SQUARES_COUNTS, OTHER_NEAR],
        words: CHECK,
        status: Status::CheckNo,
        line: "no Cycle 2\n",
    },
    Check {
        layer: &SQUARES,
        masks: None,
        cert: &[HEAD, SQUARES_COUNTS, ANCHORED],
        words: CHECK,
        status: Status::CheckNo,
        line: "no Cycle 1\n",
    },
    Check {
        layer: &SQUARES,
        masks: None,
        cert: &[HEAD, "features 3 pieces 4 zones 0\n", CYCLE],
        words: CHECK,
        status: Status::CheckNo,
        line: "no Counts 3 3 0\n",
    },
];

#[test]
fn conflicts_are_checked_without_masks(rt: HostRuntime) -> Result<(), Fail> {
    for check in &CYCLES {
        assert!(rt; ends_so(&rt, rt.alloc(), check)?, "at {}", check.line);
    }
    Ok(())
}

/// A layer, how its split ends, what that says, and what both the split and a check of its files say.
struct Own {
    layer: &'static [Rectangle],
    status: Status,
    line: &'static str,
    both: &'static str,
}

static OWN: [Own; 3] = [
    Own {
        layer: &BARS,
        status: Status::Done,
        line: "done features 2 pieces 2 zones 0 stitches 0 a 1 b 1\n",
        both: "done features 2 pieces 2 zones 0 stitches 0 a 1 b 1\nvalid masks stitches 0\n",
    },
    Own {
        layer: &CROWD,
        status: Status::Done,
        line: "done features 3 pieces 8 zones 5 stitches 1 a 2 b 6\n",
        both: "done features 3 pieces 8 zones 5 stitches 1 a 2 b 6\nvalid masks stitches 1\n",
    },
    Own {
        layer: &SQUARES,
        status: Status::Conflict,
        line: "conflict cycle 3\n",
        both: "conflict cycle 3\nvalid conflict cycle 3\n",
    },
];

/// Whether a layer is split so, and a check of the split's files is done so.
fn is_valid<R: Threads + Wait + Sync>(
    rt: &R,
    alloc: Global,
    own: &Own,
) -> Result<bool, AllocError> {
    let mut host = host_of_layer(alloc, own.layer)?;
    let is_split = says(rt, alloc, SPLIT, &mut host, own.status, own.line)?;
    Ok(is_split && says(rt, alloc, CHECK, &mut host, Status::Done, own.both)?)
}

#[test]
fn own_results_are_valid(rt: HostRuntime) -> Result<(), Fail> {
    for own in &OWN {
        assert!(rt; is_valid(&rt, rt.alloc(), own)?, "at {}", own.line);
    }
    Ok(())
}
