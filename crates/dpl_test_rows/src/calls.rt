//! The calls that a run makes of its host: it reads what the answer rests on, writes what the answer has, and makes no other call.

use crate::layers::rectangles;
use dpl_host::{Call, Failing, Kind, MemHost};
use dpl_run::Status;
use dpl_test_runs::{CHECK, SPLIT, answer};
use dpl_test_sample::{Rectangle, bars, host, masks};
use std::alloc::{AllocError, Global};
use std::sync::Wait;
use std::test::*;
use std::thread::Threads;

/// EDITS is here the file that is CERT to the other commands, and CERT a new one.
const EDIT: &str = "dpl edit --layer 1 --rule 30 --overlap 10 in cert out new";

/// A layer of one bar.
const BAR: &str = "0 0 100 20";

/// Three squares, each two closer than the rule.
const CROWD: &str = "0 0 10 10\n20 0 30 10\n10 20 20 30";

const CROWD_CERT: &str =
    "dpl 1\nrule 30 overlap 10\nfeatures 3 pieces 3 zones 0\ncycle 3\npiece 0 0 0\npiece 1 20 0\npiece 2 10 20\nnear 0 0 20 0\nnear 20 0 10 20\nnear 10 20 0 0\nend\n";

const BAR_CERT: &str =
    "dpl 1\nrule 30 overlap 10\nfeatures 1 pieces 1 zones 0 stitches 0\npiece 0 A 0 0\nend\n";

/// A command line, the rectangles of IN, each a line, the text of CERT, the call that fails, if one does, and all calls that are made, which commas part: what each asks for, and of which file. A file of less than 4,096 bytes takes two reads, of which the second gives nothing, and one call that appends.
struct Row {
    line: &'static str,
    layer: &'static str,
    cert: &'static str,
    failing: Option<Failing>,
    status: Status,
    calls: &'static str,
}

static ROWS: [Row; 17] = [
    Row {
        line: SPLIT,
        layer: BAR,
        cert: "",
        failing: None,
        status: Status::Done,
        calls: "read in, read in, create out, append out, create cert, append cert, say",
    },
    Row {
        line: SPLIT,
        layer: CROWD,
        cert: "",
        failing: None,
        status: Status::Conflict,
        calls: "read in, read in, create cert, append cert, say",
    },
    Row {
        line: "dpl split --layer 1 --rule 30 --overlap 10 --top NONE in out cert",
        layer: BAR,
        cert: "",
        failing: None,
        status: Status::Refused,
        calls: "read in, read in, create cert, append cert, say",
    },
    Row {
        line: SPLIT,
        layer: BAR,
        cert: "",
        failing: Some((Kind::Read, 0)),
        status: Status::ReadFault,
        calls: "read in",
    },
    Row {
        line: SPLIT,
        layer: BAR,
        cert: "",
        failing: Some((Kind::Create, 0)),
        status: Status::WriteFault,
        calls: "read in, read in, create out",
    },
    Row {
        line: SPLIT,
        layer: BAR,
        cert: "",
        failing: Some((Kind::Append, 1)),
        status: Status::WriteFault,
        calls: "read in, read in, create out, append out, create cert, append cert",
    },
    Row {
        line: CHECK,
        layer: BAR,
        cert: BAR_CERT,
        failing: None,
        status: Status::Done,
        calls: "read in, read in, read cert, read cert, read out, read out, say",
    },
    Row {
        line: CHECK,
        layer: CROWD,
        cert: CROWD_CERT,
        failing: None,
        status: Status::Done,
        calls: "read in, read in, read cert, read cert, say",
    },
    Row {
        line: CHECK,
        layer: BAR,
        cert: "no certificate\n",
        failing: None,
        status: Status::Refused,
        calls: "read in, read in, read cert, read cert, say",
    },
    Row {
        line: "dpl check --layer 1 --rule 30 --overlap 10 --top NONE in out cert",
        layer: BAR,
        cert: BAR_CERT,
        failing: None,
        status: Status::Refused,
        calls: "read in, read in, say",
    },
    Row {
        line: CHECK,
        layer: BAR,
        cert: BAR_CERT,
        failing: Some((Kind::Read, 4)),
        status: Status::ReadFault,
        calls: "read in, read in, read cert, read cert, read out",
    },
    Row {
        line: EDIT,
        layer: BAR,
        cert: "add 0 49 100 69\n",
        failing: None,
        status: Status::Done,
        calls: "read in, read in, read cert, read cert, create out, append out, create new, append new, say",
    },
    Row {
        line: EDIT,
        layer: BAR,
        cert: "no edit\n",
        failing: None,
        status: Status::Refused,
        calls: "read in, read in, read cert, read cert, say",
    },
    Row {
        line: "dpl edit --layer 1 --rule 30 --overlap 10 --top NONE in cert out new",
        layer: BAR,
        cert: "no edit\n",
        failing: None,
        status: Status::Refused,
        calls: "read in, read in, create new, append new, say",
    },
    Row {
        line: EDIT,
        layer: BAR,
        cert: "",
        failing: Some((Kind::Read, 2)),
        status: Status::ReadFault,
        calls: "read in, read in, read cert",
    },
    Row {
        line: "dpl demo --seed 1 --rows 1",
        layer: "",
        cert: "",
        failing: None,
        status: Status::Done,
        calls: "say",
    },
    Row {
        line: "dpl split",
        layer: "",
        cert: "",
        failing: None,
        status: Status::Usage,
        calls: "say",
    },
];

/// The files of a row, whose layer is of these rectangles. The file of masks has the bar on the first.
fn files_of(
    alloc: Global,
    row: &Row,
    layer: &[Rectangle],
) -> Result<Vec<(&'static str, Vec<u8>)>, AllocError> {
    let mut files = Vec::new(alloc);
    files.push(("in", bars(alloc, layer)?))?;
    files.push(("out", masks(alloc, &[[0, 0, 100, 20]], &[])?))?;
    files.push(("cert", Vec::from_slice(alloc, row.cert.as_bytes())?))?;
    Ok(files)
}

/// A host with the files of a row, where the listed calls fail.
fn host_of(
    alloc: Global,
    row: &Row,
    layer: &[Rectangle],
    failing: &[Failing],
) -> Result<MemHost, AllocError> {
    let failing = Vec::from_slice(alloc, failing)?;
    let files = files_of(alloc, row, layer)?;
    host(alloc, files, 4096, failing)
}

/// The word for what a call asks for.
fn word(kind: Kind) -> &'static str {
    match kind {
        Kind::Read => "read",
        Kind::Create => "create",
        Kind::Append => "append",
        Kind::Say => "say",
    }
}

/// Whether a call is the one that a text names.
fn is_call(call: &Call, text: &str) -> bool {
    let (asked, name) = text.split_once(' ').unwrap_or((text, ""));
    asked == word(call.kind()) && name == call.name()
}

/// Whether the host took these calls in this order, and no other.
fn took(host: &MemHost, calls: &str) -> bool {
    let Some(kept) = host.calls() else {
        return false;
    };
    let mut rest = kept.iter();
    for text in calls.split(", ") {
        match rest.next() {
            Some(call) if is_call(call, text) => {}
            _ => return false,
        }
    }
    rest.next().is_none()
}

/// Whether a run on this layer, where the listed calls fail, ends as its row says, with these calls.
fn ends<R: Threads + Wait + Sync>(
    rt: &R,
    alloc: Global,
    row: &Row,
    layer: &[Rectangle],
    failing: &[Failing],
) -> Result<bool, AllocError> {
    let mut host = host_of(alloc, row, layer, failing)?;
    let status = answer(rt, alloc, row.line, &mut host)?;
    Ok(status == row.status && took(&host, row.calls))
}

/// Whether a run ends as its row says, with these calls. Not so where the layer isn't a list of rectangles.
fn fits<R: Threads + Wait + Sync>(rt: &R, alloc: Global, row: &Row) -> Result<bool, AllocError> {
    let Some(layer) = rectangles(alloc, row.layer)? else {
        return Ok(false);
    };
    match row.failing {
        Some(call) => ends(rt, alloc, row, layer.as_slice(), &[call]),
        None => ends(rt, alloc, row, layer.as_slice(), &[]),
    }
}

#[test]
fn a_run_makes_no_needless_call(rt: HostRuntime) -> Result<(), Fail> {
    for row in &ROWS {
        assert!(rt; fits(&rt, rt.alloc(), row)?, "at {}", row.line);
    }
    Ok(())
}
