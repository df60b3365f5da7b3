//! Layouts that are made up.

use dpl_test_runs::said;
use std::alloc::{AllocError, Global};
use std::sync::Wait;
use std::test::*;
use std::thread::Threads;

/// Whether this is said of a made-up layout, which is done.
fn says<R: Threads + Wait + Sync>(
    rt: &R,
    alloc: Global,
    line: &str,
    text: &[u8],
) -> Result<bool, AllocError> {
    match said(rt, alloc, line)? {
        Some(said) => Ok(said.as_slice() == text),
        None => Ok(false),
    }
}

static ROWS: [(&str, &str); 2] = [
    (
        "dpl demo --seed 0 --rows 1",
        "demo features 2 pieces 2 zones 0 stitches 0 a 2 b 0\n",
    ),
    (
        "dpl demo --seed 0 --rows 2",
        "demo features 4 pieces 6 zones 2 stitches 0 a 2 b 2\n",
    ),
];

#[test]
fn rows_are_split(rt: HostRuntime) -> Result<(), Fail> {
    for &(line, text) in &ROWS {
        assert!(rt; says(&rt, rt.alloc(), line, text.as_bytes())?, "at {line}");
    }
    Ok(())
}

/// One worker makes no tiles.
const ONE: &str = "dpl demo --seed 0 --rows 1000 --workers 1";

static MORE: [&str; 2] = [
    "dpl demo --seed 0 --rows 1000 --tile 100 --workers 2",
    "dpl demo --seed 0 --rows 1000 --tile 4096 --workers 64",
];

/// Whether a thousand rows are split by one worker, and the same is said of them by the line.
fn is_said_alike<R: Threads + Wait + Sync>(
    rt: &R,
    alloc: Global,
    line: &str,
) -> Result<bool, AllocError> {
    let Some(one) = said(rt, alloc, ONE)? else {
        return Ok(false);
    };
    if !one.as_slice().starts_with(b"demo features 2000 ") {
        return Ok(false);
    }
    says(rt, alloc, line, one.as_slice())
}

#[test]
fn tiles_and_workers_do_not_show(rt: HostRuntime) -> Result<(), Fail> {
    for line in &MORE {
        assert!(rt; is_said_alike(&rt, rt.alloc(), line)?, "at {line}");
    }
    Ok(())
}
