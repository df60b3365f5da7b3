//! Words that are no command.

use dpl_run::{Status, USAGE};
use dpl_test_runs::{BAR, host_of_layer, says};
use std::alloc::{AllocError, Global};
use std::sync::Wait;
use std::test::*;
use std::thread::Threads;

static LINES: [&str; 9] = [
    "dpl",
    "dpl --help",
    "dpl split --help",
    "dpl check --layer 1 --rule 30 --overlap 10 in out out",
    "dpl demo --seed 0 --rows 0",
    "dpl split --layer 1 --rule 30 --overlap 10 in in cert",
    "dpl split --layer 1 --rule 30 --overlap 10 --a 102 in out cert",
    "dpl split --layer 1 --rule 0 --overlap 10 in out cert",
    "dpl split --layer 1 --rule 30 --overlap 10 in out",
];

/// Whether a line is answered by the usage, and no certificate is written.
fn is_usage<R: Threads + Wait + Sync>(
    rt: &R,
    alloc: Global,
    line: &str,
) -> Result<bool, AllocError> {
    let mut host = host_of_layer(alloc, &[BAR])?;
    let is_said = says(rt, alloc, line, &mut host, Status::Usage, USAGE)?;
    Ok(is_said && host.file("cert") == None)
}

#[test]
fn other_words_are_answered_by_the_usage(rt: HostRuntime) -> Result<(), Fail> {
    for line in LINES.iter() {
        assert!(rt; is_usage(&rt, rt.alloc(), line)?, "at {line}");
    }
    Ok(())
}
