//! Cases in texts: layers of rectangles, and what a split makes of each.
//!
//! A text has its cases one after the other: a line of `# ` and what it shows, the rectangles of the layer, each a line, and `=> ` with the outcome. This is either `conflict` and the lines of the certificate behind the rule, or `done ` with what is said, the lines of the certificate behind the rule, `mask A` and the rectangles of this mask, and `mask B` and those of that.

use crate::layers::rectangles;
use dpl_test_runs::{Done, is_conflict, is_done};
use dpl_test_sample::{Rectangle, bars};
use std::alloc::{AllocError, Global};
use std::sync::Wait;
use std::test::Fail;
use std::thread::Threads;

/// Whether the line splits the layer so.
pub fn splits<R: Threads + Wait + Sync>(
    rt: &R,
    alloc: Global,
    line: &str,
    layer: &[Rectangle],
    done: &Done<'_>,
) -> Result<bool, AllocError> {
    let file = bars(alloc, layer)?;
    is_done(rt, alloc, line, file, done)
}

/// Whether the line finds an odd cycle of three pieces in the layer, and these lines of the certificate tell of it.
pub fn finds<R: Threads + Wait + Sync>(
    rt: &R,
    alloc: Global,
    line: &str,
    layer: &[Rectangle],
    cert: &str,
) -> Result<bool, AllocError> {
    let file = bars(alloc, layer)?;
    is_conflict(rt, alloc, line, file, cert)
}

/// What a split is to make of a layer, in texts: what is said, the lines of the certificate, and both masks.
#[derive(Drop)]
struct Split<'a> {
    said: &'a str,
    cert: &'a str,
    a: &'a str,
    b: &'a str,
}

/// The split that a text is behind `done `. None where a part of it is missing.
fn split_of(text: &str) -> Option<Split<'_>> {
    let (said, rest) = text.split_once('\n')?;
    let (cert, masks) = rest.split_once("mask A\n")?;
    let (a, b) = masks.split_once("mask B\n")?;
    Some(Split { said, cert, a, b })
}

/// Whether the line splits the layer so. Not so where a mask isn't a list of rectangles.
fn splits_so<R: Threads + Wait + Sync>(
    rt: &R,
    alloc: Global,
    line: &str,
    layer: &[Rectangle],
    split: &Split<'_>,
) -> Result<bool, AllocError> {
    let Some(a) = rectangles(alloc, split.a)? else {
        return Ok(false);
    };
    let Some(b) = rectangles(alloc, split.b)? else {
        return Ok(false);
    };
    let done = Done {
        line: split.said,
        cert: split.cert,
        a: a.as_slice(),
        b: b.as_slice(),
    };
    splits(rt, alloc, line, layer, &done)
}

/// Whether the line makes of the layer what the text says.
fn makes<R: Threads + Wait + Sync>(
    rt: &R,
    alloc: Global,
    line: &str,
    layer: &[Rectangle],
    outcome: &str,
) -> Result<bool, AllocError> {
    if let Some(cert) = outcome.strip_prefix("conflict\n") {
        return finds(rt, alloc, line, layer, cert);
    }
    let Some(done) = outcome.strip_prefix("done ") else {
        return Ok(false);
    };
    match split_of(done) {
        Some(split) => splits_so(rt, alloc, line, layer, &split),
        None => Ok(false),
    }
}

/// The layer and the outcome of a case, without what it shows. None where there is no outcome.
fn parts_of(case: &str) -> Option<(&str, &str)> {
    let (_, rest) = case.split_once('\n')?;
    rest.split_once("=> ")
}

/// Whether the line makes of the layer what the case says.
fn holds<R: Threads + Wait + Sync>(
    rt: &R,
    alloc: Global,
    line: &str,
    case: &str,
) -> Result<bool, AllocError> {
    let Some((layer, outcome)) = parts_of(case) else {
        return Ok(false);
    };
    match rectangles(alloc, layer)? {
        Some(layer) => makes(rt, alloc, line, layer.as_slice(), outcome),
        None => Ok(false),
    }
}

/// Fails at the first case that doesn't hold for the line. There is one at least.
fn all_hold_for<R: Threads + Wait + Sync>(
    rt: &R,
    alloc: Global,
    line: &str,
    cases: &str,
) -> Result<(), Fail> {
    let Some(cases) = cases.strip_prefix('#') else {
        return Err(Fail::new(format_args!("no case begins here: {cases}")));
    };
    for case in cases.split('#') {
        if !holds(rt, alloc, line, case)? {
            return Err(Fail::new(format_args!("at {line}:{case}")));
        }
    }
    Ok(())
}

/// Fails at the first case that doesn't hold for one of the lines.
pub fn all_hold<R: Threads + Wait + Sync>(
    rt: &R,
    alloc: Global,
    lines: &[&str],
    cases: &str,
) -> Result<(), Fail> {
    for line in lines {
        all_hold_for(rt, alloc, line, cases)?;
    }
    Ok(())
}
