//! Cases in texts: layouts, and what a split makes of each.
//!
//! A text has its cases, at least one, one after the other: a line of `# ` and what it shows, the lines of the layout, and `=> ` with the outcome, which is either `refused ` with the fault, or `done ` with what is said, the lines of the certificate behind the rule, `mask A`, and the four numbers of each rectangle of this mask. Nothing is on mask B. A case of another form doesn't hold.

use crate::layouts::{file_of, numbers};
use dpl_test_runs::{Done, is_done, is_refused};
use std::alloc::{AllocError, Global};
use std::sync::Wait;
use std::test::Fail;
use std::thread::Threads;

/// Whether the line splits the file so.
fn is_split<R: Threads + Wait + Sync>(
    rt: &R,
    alloc: Global,
    line: &str,
    file: Vec<u8>,
    done: &str,
) -> Result<bool, AllocError> {
    let Some((said, rest)) = done.split_once('\n') else {
        return Ok(false);
    };
    let Some((cert, mask)) = rest.split_once("mask A\n") else {
        return Ok(false);
    };
    let Some(corners) = numbers(alloc, mask)? else {
        return Ok(false);
    };
    let (rectangles, []) = corners.as_chunks::<4>() else {
        return Ok(false);
    };
    let done = Done {
        line: said,
        cert,
        a: rectangles,
        b: &[],
    };
    is_done(rt, alloc, line, file, &done)
}

/// Whether the line makes this of the file.
fn makes<R: Threads + Wait + Sync>(
    rt: &R,
    alloc: Global,
    line: &str,
    file: Vec<u8>,
    outcome: &str,
) -> Result<bool, AllocError> {
    match outcome.split_once(' ') {
        Some(("refused", fault)) => is_refused(rt, alloc, line, file, fault.trim_end()),
        Some(("done", done)) => is_split(rt, alloc, line, file, done),
        _ => Ok(false),
    }
}

/// Whether the line makes of the layout what the case says.
fn holds<R: Threads + Wait + Sync>(
    rt: &R,
    alloc: Global,
    line: &str,
    case: &str,
) -> Result<bool, AllocError> {
    let Some((_, case)) = case.split_once('\n') else {
        return Ok(false);
    };
    let Some((layout, outcome)) = case.split_once("\n=> ") else {
        return Ok(false);
    };
    match file_of(alloc, layout)? {
        Some(file) => makes(rt, alloc, line, file, outcome),
        None => Ok(false),
    }
}

/// Fails at the first case that doesn't hold for the line, and at a text that doesn't begin with a case.
pub fn all_hold<R: Threads + Wait + Sync>(
    rt: &R,
    alloc: Global,
    line: &str,
    cases: &str,
) -> Result<(), Fail> {
    let Some(cases) = cases.strip_prefix("# ") else {
        return Err(Fail::new(format_args!("no case")));
    };
    for case in cases.split("# ") {
        if !holds(rt, alloc, line, case)? {
            return Err(Fail::new(format_args!("{case}")));
        }
    }
    Ok(())
}
