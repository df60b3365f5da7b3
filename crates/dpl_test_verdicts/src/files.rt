//! The files that a check reads, in order, and the first that is refused or isn't there.

use crate::verdicts::{Check, host_of};
use dpl_host::Kind;
use dpl_run::Status;
use dpl_test_runs::{BAR, CHECK, ONE_BAR, says, text};
use dpl_test_sample::{bars, host, masks};
use std::alloc::{AllocError, Global};
use std::sync::Wait;
use std::test::*;
use std::thread::Threads;

const HEAD: &str = "dpl 1\nrule 30 overlap 10\n";

/// What stands for a file of one bar, its masks or its certificate.
enum Stands {
    /// The file itself.
    Whole,
    /// Its first 140 bytes.
    Cut,
    /// 268,435,457 bytes 0.
    Large,
    /// The certificate of a fault.
    Fault,
    /// A text that is no certificate.
    Other,
    /// No file.
    Missing,
}

/// What stands for the layer, the certificate and the masks, how a check ends, and what it says.
type Case = ([Stands; 3], Status, &'static str);

static CASES: [Case; 9] = [
    (
        [Stands::Whole, Stands::Whole, Stands::Whole],
        Status::Done,
        "valid masks stitches 0\n",
    ),
    (
        [Stands::Cut, Stands::Other, Stands::Cut],
        Status::Refused,
        "refused in Truncated 114\n",
    ),
    (
        [Stands::Whole, Stands::Other, Stands::Cut],
        Status::Refused,
        "refused cert Line 1\n",
    ),
    (
        [Stands::Whole, Stands::Whole, Stands::Cut],
        Status::Refused,
        "refused out Truncated 114\n",
    ),
    (
        [Stands::Whole, Stands::Fault, Stands::Missing],
        Status::CheckNo,
        "no WasFault AngleNotRight 202\n",
    ),
    (
        [Stands::Missing, Stands::Other, Stands::Cut],
        Status::ReadFault,
        "",
    ),
    (
        [Stands::Cut, Stands::Missing, Stands::Missing],
        Status::Refused,
        "refused in Truncated 114\n",
    ),
    (
        [Stands::Whole, Stands::Missing, Stands::Cut],
        Status::ReadFault,
        "",
    ),
    (
        [Stands::Whole, Stands::Whole, Stands::Missing],
        Status::ReadFault,
        "",
    ),
];

/// The files of a host by their names.
type Files = Vec<(&'static str, Vec<u8>)>;

/// What stands for a file in place of its bytes, where there is one.
fn other(alloc: Global, stands: &Stands) -> Result<Option<Vec<u8>>, AllocError> {
    match stands {
        Stands::Large => Ok(Some(vec![in alloc; 0u8; 268_435_457]?)),
        Stands::Fault => Ok(Some(text(alloc, &["dpl 1\nfault AngleNotRight 202\nend\n"])?)),
        Stands::Other => Ok(Some(text(alloc, &["dpl 4\n"])?)),
        _ => Ok(None),
    }
}

/// What stands for a file, where there is one.
fn stand_in(alloc: Global, stands: &Stands, whole: Vec<u8>) -> Result<Option<Vec<u8>>, AllocError> {
    let mut file = whole;
    match stands {
        Stands::Whole => Ok(Some(file)),
        Stands::Cut => {
            file.truncate(140);
            Ok(Some(file))
        }
        _ => other(alloc, stands),
    }
}

/// The files and what stands for one more, where there is one.
fn with_file(
    alloc: Global,
    mut files: Files,
    name: &'static str,
    whole: Vec<u8>,
    stands: &Stands,
) -> Result<Files, AllocError> {
    if let Some(file) = stand_in(alloc, stands, whole)? {
        files.push((name, file))?;
    }
    Ok(files)
}

/// The files of a case.
fn files_of(alloc: Global, case: &Case) -> Result<Files, AllocError> {
    let [layer, cert, out] = &case.0;
    let none = Vec::new(alloc);
    let files = with_file(alloc, none, "in", bars(alloc, &[BAR])?, layer)?;
    let files = with_file(alloc, files, "cert", text(alloc, &[HEAD, ONE_BAR])?, cert)?;
    with_file(alloc, files, "out", masks(alloc, &[BAR], &[])?, out)
}

/// Whether a check of these files ends so.
fn fits<R: Threads + Wait + Sync>(rt: &R, alloc: Global, case: &Case) -> Result<bool, AllocError> {
    let files = files_of(alloc, case)?;
    let mut host = host(alloc, files, 1_000_000_000, Vec::new(alloc))?;
    says(rt, alloc, CHECK, &mut host, case.1, case.2)
}

#[test]
fn the_first_faulty_file_is_refused(rt: HostRuntime) -> Result<(), Fail> {
    for case in &CASES {
        assert!(rt; fits(&rt, rt.alloc(), case)?, "at {}", case.2);
    }
    Ok(())
}

static LARGE_LAYER: Case = (
    [Stands::Large, Stands::Other, Stands::Cut],
    Status::Refused,
    "refused in TooLarge 268435456\n",
);

#[test]
fn a_layer_past_the_limit_is_refused(rt: HostRuntime) -> Result<(), Fail> {
    assert!(rt; fits(&rt, rt.alloc(), &LARGE_LAYER)?);
    Ok(())
}

static LARGE_CERTIFICATE: Case = (
    [Stands::Whole, Stands::Large, Stands::Cut],
    Status::Refused,
    "refused cert TooLarge 268435456\n",
);

#[test]
fn a_certificate_past_the_limit_is_refused(rt: HostRuntime) -> Result<(), Fail> {
    assert!(rt; fits(&rt, rt.alloc(), &LARGE_CERTIFICATE)?);
    Ok(())
}

/// The check of one bar.
static CHECK_OF_BAR: Check = Check {
    layer: &[BAR],
    masks: Some([&[BAR], &[]]),
    cert: &[HEAD, ONE_BAR],
    words: CHECK,
    status: Status::Done,
    line: "valid masks stitches 0\n",
};

/// A check reads 170 bytes of the layer in three calls, 82 of the certificate in two and 170 of the masks in three, by 100 bytes a call and one more at each end.
#[test]
fn each_read_that_fails_ends_the_check(rt: HostRuntime) -> Result<(), Fail> {
    let alloc = rt.alloc();
    for number in 0..9 {
        let (status, line) = if number < 8 {
            (Status::ReadFault, "")
        } else {
            (CHECK_OF_BAR.status, CHECK_OF_BAR.line)
        };
        let mut host = host_of(alloc, &CHECK_OF_BAR, 100, &[(Kind::Read, number)])?;
        assert!(rt;
            says(&rt, alloc, CHECK, &mut host, status, line)?,
            "at read {number}"
        );
    }
    Ok(())
}
