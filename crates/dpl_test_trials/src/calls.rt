//! Calls of the outside that fail.

use dpl_host::{Failing, Kind, MemHost, SureHost};
use dpl_pool::OpenGate;
use dpl_run::{Status, run};
use dpl_test_runs::{BAR, SPLIT, answer, host_with, says};
use dpl_test_sample::{bars, is_text, masks, words};
use std::alloc::{AllocError, Global};
use std::collections::BTreeMap;
use std::sync::Wait;
use std::test::*;
use std::thread::Threads;

/// The certificate of one bar.
const CERT: &str =
    "dpl 1\nrule 30 overlap 10\nfeatures 1 pieces 1 zones 0 stitches 0\npiece 0 A 0 0\nend\n";

/// What is said of one bar.
const LINE: &str = "done features 1 pieces 1 zones 0 stitches 0 a 1 b 0\n";

/// A host with one bar's file and two files that are to be written, of which one call fails.
fn failing(alloc: Global, step: usize, fails: Failing) -> Result<MemHost, AllocError> {
    let layer = bars(alloc, &[BAR])?;
    let files: [(&'static str, &[u8]); 3] = [
        ("in", layer.as_slice()),
        ("out", "old masks".as_bytes()),
        ("cert", "old certificate".as_bytes()),
    ];
    host_with(alloc, &files, step, &[fails])
}

/// A call that fails, and how many bytes of the masks, the certificate and the line are there then: none is a file as before.
struct Fault {
    step: usize,
    kind: Kind,
    number: u64,
    out: Option<usize>,
    cert: Option<usize>,
    said: usize,
}

static FAULTS: [Fault; 8] = [
    Fault {
        step: 100,
        kind: Kind::Create,
        number: 0,
        out: None,
        cert: None,
        said: 0,
    },
    Fault {
        step: 100,
        kind: Kind::Append,
        number: 0,
        out: Some(0),
        cert: None,
        said: 0,
    },
    Fault {
        step: 100,
        kind: Kind::Append,
        number: 1,
        out: Some(100),
        cert: None,
        said: 0,
    },
    Fault {
        step: 100,
        kind: Kind::Create,
        number: 1,
        out: Some(170),
        cert: None,
        said: 0,
    },
    Fault {
        step: 100,
        kind: Kind::Append,
        number: 2,
        out: Some(170),
        cert: Some(0),
        said: 0,
    },
    Fault {
        step: 50,
        kind: Kind::Append,
        number: 5,
        out: Some(170),
        cert: Some(50),
        said: 0,
    },
    Fault {
        step: 100,
        kind: Kind::Say,
        number: 0,
        out: Some(170),
        cert: Some(82),
        said: 0,
    },
    Fault {
        step: 50,
        kind: Kind::Say,
        number: 1,
        out: Some(170),
        cert: Some(82),
        said: 50,
    },
];

/// Whether a file is the front of so many bytes, or as before.
fn is_front(file: Option<&[u8]>, whole: &[u8], count: Option<usize>, before: &str) -> bool {
    match count {
        Some(count) => file == whole.get(..count),
        None => file == Some(before.as_bytes()),
    }
}

/// Whether the files and what was said are these fronts, and no call found no memory.
fn is_left(host: &MemHost, masks: &[u8], fault: &Fault) -> bool {
    let cert = CERT.as_bytes();
    is_front(host.file("out"), masks, fault.out, "old masks")
        && is_front(host.file("cert"), cert, fault.cert, "old certificate")
        && Some(host.said()) == LINE.as_bytes().get(..fault.said)
        && host.refused() == 0
}

/// Whether a split of which this write fails leaves these fronts.
fn leaves<R: Threads + Wait + Sync>(
    rt: &R,
    alloc: Global,
    fault: &Fault,
) -> Result<bool, AllocError> {
    let masks = masks(alloc, &[BAR], &[])?;
    let mut host = failing(alloc, fault.step, (fault.kind, fault.number))?;
    let status = answer(rt, alloc, SPLIT, &mut host)?;
    Ok(status == Status::WriteFault && is_left(&host, masks.as_slice(), fault))
}

#[test]
fn a_failed_write_leaves_a_front(rt: HostRuntime) -> Result<(), Fail> {
    for (row, fault) in FAULTS.iter().enumerate() {
        assert!(rt; leaves(&rt, rt.alloc(), fault)?, "at row {row}");
    }
    Ok(())
}

/// How a split ends of which this read fails, and whether both files are then as before and nothing was said.
fn ends<R: Threads + Wait + Sync>(
    rt: &R,
    alloc: Global,
    number: u64,
) -> Result<(Status, bool), AllocError> {
    let mut host = failing(alloc, 100, (Kind::Read, number))?;
    let status = answer(rt, alloc, SPLIT, &mut host)?;
    let is_as_before = is_text(host.file("out"), &["old masks"])
        && is_text(host.file("cert"), &["old certificate"])
        && host.said().is_empty();
    Ok((status, is_as_before))
}

/// 170 bytes are read in two calls of 100 bytes at most, and one more at the end.
#[test]
fn a_failed_read_changes_nothing(rt: HostRuntime) -> Result<(), Fail> {
    for number in 0..4 {
        let want = if number < 3 {
            (Status::ReadFault, true)
        } else {
            (Status::Done, false)
        };
        assert!(rt; ends(&rt, rt.alloc(), number)? == want, "at read {number}");
    }
    Ok(())
}

#[test]
fn a_file_that_is_not_there_is_a_read_fault(rt: HostRuntime) -> Result<(), Fail> {
    let alloc = rt.alloc();
    let mut host = host_with(alloc, &[], 4096, &[])?;
    assert!(rt; says(&rt, alloc, SPLIT, &mut host, Status::ReadFault, "")?);
    assert!(rt; host.file("cert") == None);
    Ok(())
}

/// One bar's file by its name.
fn one_file(alloc: Global) -> Result<BTreeMap<String, Vec<u8>>, AllocError> {
    let mut files = BTreeMap::new(alloc);
    let name = String::from_str(alloc, "in")?;
    files.insert(name, bars(alloc, &[BAR])?)?;
    Ok(files)
}

#[test]
fn a_host_that_never_fails_takes_all(rt: HostRuntime) -> Result<(), Fail> {
    let alloc = rt.alloc();
    let words = words(alloc, SPLIT)?;
    let files = one_file(alloc)?;
    let mut host = SureHost::new(&files);
    let status = run(&rt, alloc, &words, &mut host, &OpenGate);
    assert!(rt; status == Status::Done && host.taken() == 170 + 82 + 52);
    Ok(())
}
