//! Runs over files in memory, each with the file of a layer, and what they leave.

use dpl_host::MemHost;
use dpl_pool::OpenGate;
use dpl_run::{Status, run};
use dpl_test_sample::{Rectangle, host, is_text, masks, words};
use std::alloc::{AllocError, Global};
use std::sync::Wait;
use std::thread::Threads;

/// A split of layer 1 with a rule of 30 and an overlap of 10.
pub const SPLIT: &str = "dpl split --layer 1 --rule 30 --overlap 10 in out cert";

/// What is said of one bar, behind `done `.
const ONE_LINE: &str = "features 1 pieces 1 zones 0 stitches 0 a 1 b 0";

/// A layer on two masks: what is said behind `done `, the lines of the certificate behind the rule, and both masks.
#[derive(Clone, Copy)]
pub struct Done<'a> {
    pub line: &'a str,
    pub cert: &'a str,
    pub a: &'a [Rectangle],
    pub b: &'a [Rectangle],
}

/// One bar.
pub const BAR: Rectangle = [0, 0, 100, 20];

/// A layer of one bar.
pub const AS_ONE: Done<'static> = Done {
    line: ONE_LINE,
    cert: "features 1 pieces 1 zones 0 stitches 0\npiece 0 A 0 0\n",
    a: &[BAR],
    b: &[],
};

/// A layer without a shape.
pub const EMPTY: Done<'static> = Done {
    line: "features 0 pieces 0 zones 0 stitches 0 a 0 b 0",
    cert: "features 0 pieces 0 zones 0 stitches 0\n",
    a: &[],
    b: &[],
};

/// Runs the line on the host.
pub fn answer<R: Threads + Wait + Sync>(
    rt: &R,
    alloc: Global,
    line: &str,
    host: &mut MemHost,
) -> Result<Status, AllocError> {
    let words = words(alloc, line)?;
    Ok(run(rt, alloc, &words, host, &OpenGate))
}

/// A host with one file.
fn host_with_file(alloc: Global, file: Vec<u8>) -> Result<MemHost, AllocError> {
    host(alloc, vec![in alloc; ("in", file)]?, 4096, Vec::new(alloc))
}

/// The host after a run of the line on the file. None where the run doesn't end so.
fn left_by<R: Threads + Wait + Sync>(
    rt: &R,
    alloc: Global,
    line: &str,
    file: Vec<u8>,
    status: Status,
) -> Result<Option<MemHost>, AllocError> {
    let mut host = host_with_file(alloc, file)?;
    if answer(rt, alloc, line, &mut host)? == status {
        Ok(Some(host))
    } else {
        Ok(None)
    }
}

/// Whether the line and the certificate that a split left are these.
fn tells_done(host: &MemHost, done: &Done<'_>) -> bool {
    is_text(Some(host.said()), &["done ", done.line, "\n"])
        && is_text(
            host.file("cert"),
            &["dpl 1\nrule 30 overlap 10\n", done.cert, "end\n"],
        )
}

/// Whether the masks that a split left are these.
fn has_masks(alloc: Global, host: &MemHost, done: &Done<'_>) -> Result<bool, AllocError> {
    let out = masks(alloc, done.a, done.b)?;
    Ok(host.file("out") == Some(out.as_slice()))
}

/// Whether the line splits the file so.
pub fn is_done<R: Threads + Wait + Sync>(
    rt: &R,
    alloc: Global,
    line: &str,
    file: Vec<u8>,
    done: &Done<'_>,
) -> Result<bool, AllocError> {
    match left_by(rt, alloc, line, file, Status::Done)? {
        Some(host) => Ok(tells_done(&host, done) && has_masks(alloc, &host, done)?),
        None => Ok(false),
    }
}

/// Whether a split left a conflict of three pieces, and these lines of the certificate, and no masks.
fn tells_conflict(host: &MemHost, cert: &str) -> bool {
    host.said() == b"conflict cycle 3\n".as_slice()
        && is_text(
            host.file("cert"),
            &["dpl 1\nrule 30 overlap 10\n", cert, "end\n"],
        )
        && host.file("out") == None
}

/// Whether the line finds an odd cycle of three pieces in the file, and these lines of the certificate tell of it.
pub fn is_conflict<R: Threads + Wait + Sync>(
    rt: &R,
    alloc: Global,
    line: &str,
    file: Vec<u8>,
    cert: &str,
) -> Result<bool, AllocError> {
    match left_by(rt, alloc, line, file, Status::Conflict)? {
        Some(host) => Ok(tells_conflict(&host, cert)),
        None => Ok(false),
    }
}

/// Whether a split left this fault in its line and its certificate, and no masks.
fn tells_fault(host: &MemHost, fault: &str) -> bool {
    is_text(Some(host.said()), &["refused ", fault, "\n"])
        && is_text(host.file("cert"), &["dpl 1\nfault ", fault, "\nend\n"])
        && host.file("out") == None
}

/// Whether the line finds this fault in the file, and its certificate tells the same.
pub fn is_refused<R: Threads + Wait + Sync>(
    rt: &R,
    alloc: Global,
    line: &str,
    file: Vec<u8>,
    fault: &str,
) -> Result<bool, AllocError> {
    match left_by(rt, alloc, line, file, Status::Refused)? {
        Some(host) => Ok(tells_fault(&host, fault)),
        None => Ok(false),
    }
}

/// What a made-up layout is said to be, where it is done.
pub fn said<R: Threads + Wait + Sync>(
    rt: &R,
    alloc: Global,
    line: &str,
) -> Result<Option<Vec<u8>>, AllocError> {
    let mut host = host(alloc, Vec::new(alloc), 4096, Vec::new(alloc))?;
    if answer(rt, alloc, line, &mut host)? != Status::Done {
        return Ok(None);
    }
    Ok(Some(Vec::from_slice(alloc, host.said())?))
}
