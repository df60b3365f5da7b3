//! Texts of each version: certificates, which are written as they were read, and texts that are refused at a line.
//!
//! Before each text stands a line: `# whole` where it is a certificate, and else `# ` and the number of the first line up to which no certificate begins like it.

use dpl_cert::cert_bytes;
use dpl_parse::{CertFault, read_cert};
use std::alloc::Global;
use std::test::*;

/// Certificates, which are written as they were read.
const WHOLE: &str = "# whole
dpl 1
rule 30 overlap 10
features 1 pieces 2 zones 1 stitches 1
piece 0 A 0 0
piece 1 B 60 0
stitch 50 0 60 20 0 1
end
# whole
dpl 1
rule 30 overlap 10
features 3 pieces 3 zones 0
cycle 3
piece 0 0 0
piece 1 20 0
piece 2 10 20
near 0 0 20 0
near 20 0 10 20
near 10 20 0 0
end
# whole
dpl 1
fault AngleNotRight 202
end
# whole
dpl 2
rule 30 overlap 10 corner 29
features 1 pieces 1 zones 0 stitches 0
piece 0 A -5 0
end
# whole
dpl 2
rule 30 overlap 10 corner 1
features 1 pieces 1 zones 0
cycle 3
anchor A
anchor B
piece 0 0 0
anchors
marked 0 0
marked -1 0
end
# whole
dpl 3
rule 30 overlap 10 corner 30
features 1 pieces 1 zones 0 stitches 0
gains 2
piece 0 A 0 0
gain 0 1 2
gain 4 0 1
end
# whole
dpl 3
rule 30 overlap 10 corner 1
features 0 pieces 0 zones 0 stitches 0
gains 0
end
";

/// Only version 1 goes without a corner rule, and version 2 names one that is less than the rule.
const VERSIONS: &str = "# 2
dpl 1
rule 30 overlap 10 corner 29
features 0 pieces 0 zones 0 stitches 0
end
# 2
dpl 2
rule 30 overlap 10
features 0 pieces 0 zones 0 stitches 0
end
# 2
dpl 2
rule 30 overlap 10 corner 30
features 0 pieces 0 zones 0 stitches 0
end
# 2
dpl 2
rule 30 overlap 10 corner 0
features 0 pieces 0 zones 0 stitches 0
end
# 2
dpl 3
rule 30 overlap 10 corner 31
features 0 pieces 0 zones 0 stitches 0
gains 0
end
# 2
dpl 2
fault AngleNotRight 202
end
";

/// Version 3 alone counts gains, and has no conflicts.
const COUNTED: &str = "# 4
dpl 2
rule 30 overlap 10 corner 29
features 0 pieces 0 zones 0 stitches 0
gains 0
end
# 4
dpl 3
rule 30 overlap 10 corner 30
features 0 pieces 0 zones 0 stitches 0
end
# 3
dpl 3
rule 30 overlap 10 corner 30
features 3 pieces 3 zones 0
cycle 3
piece 0 0 0
";

/// The numbers of gains rise, and leave room for those still to come.
const NUMBERED: &str = "# 7
dpl 3
rule 30 overlap 10 corner 30
features 1 pieces 1 zones 0 stitches 0
gains 2
piece 0 A 0 0
gain 4 0 0
gain 4 0 0
end
# 6
dpl 3
rule 30 overlap 10 corner 30
features 1 pieces 1 zones 0 stitches 0
gains 2
piece 0 A 0 0
gain 18446744073709551615 0 0
";

/// There are two anchors, and a marked square has two coordinates.
const ANCHORED: &str = "# 5
dpl 1
rule 30 overlap 10
features 1 pieces 1 zones 0
cycle 3
anchor C
# 5
dpl 1
rule 30 overlap 10
features 1 pieces 1 zones 0
cycle 3
anchor A 0
# 9
dpl 1
rule 30 overlap 10
features 1 pieces 1 zones 0
cycle 3
anchor A
anchor B
piece 0 0 0
anchors
marked 00 0
marked 0 0
end
# 8
dpl 1
rule 30 overlap 10
features 1 pieces 1 zones 0
cycle 3
anchor A
anchor B
piece 0 0 0
anchors 0
";

/// The text of the certificate that a text is.
fn again(alloc: Global, text: &str) -> Result<Vec<u8>, CertFault> {
    let cert = read_cert(alloc, text.as_bytes())?;
    Ok(cert_bytes(alloc, &cert)?)
}

/// The line at which a text is refused, or None where it is whole, by what stands before it. None where that says neither.
fn bad_line(head: &str) -> Option<Option<u64>> {
    match head.trim_start() {
        "whole" => Some(None),
        line => Some(Some(line.parse::<u64>().ok()?)),
    }
}

/// Whether a text is what the line before it says.
fn holds(alloc: Global, case: &str) -> bool {
    let Some((head, text)) = case.split_once('\n') else {
        return false;
    };
    let Some(bad) = bad_line(head) else {
        return false;
    };
    match again(alloc, text) {
        Ok(bytes) => bad == None && bytes.as_slice() == text.as_bytes(),
        Err(CertFault::BadLine { line }) => bad == Some(line),
        Err(CertFault::NoMemory) => false,
    }
}

/// Fails at the first text that isn't what the line before it says. There is one at least.
fn all_hold(alloc: Global, cases: &str) -> Result<(), Fail> {
    let Some(cases) = cases.strip_prefix('#') else {
        return Err(Fail::new(format_args!("no text begins here: {cases}")));
    };
    for case in cases.split('#') {
        if !holds(alloc, case) {
            return Err(Fail::new(format_args!("{case}")));
        }
    }
    Ok(())
}

static TEXTS: [&str; 5] = [WHOLE, VERSIONS, COUNTED, NUMBERED, ANCHORED];

#[test]
fn certificates_are_written_as_they_were_read(rt: HostRuntime) -> Result<(), Fail> {
    for cases in &TEXTS {
        all_hold(rt.alloc(), cases)?;
    }
    Ok(())
}
