//! Runs over files in memory: what is in the files before, and what each run says and leaves.

use crate::checks::text;
use crate::splits::answer;
use dpl_host::{Failing, MemHost};
use dpl_run::Status;
use dpl_test_sample::{Part, Rectangle, bars, finish, host, is_text, library, masks, put_parts};
use std::alloc::{AllocError, Global};
use std::sync::Wait;
use std::test::Fail;
use std::thread::Threads;

/// What is in a file.
#[derive(Clone, Copy)]
pub enum Content<'a> {
    Text(&'a str),
    /// A text in parts.
    Texts(&'a [&'a str]),
    /// A layout of these rectangles on layer 1.
    Bars(&'a [Rectangle]),
    /// A layout of these lists of parts, in the structure TOP.
    Top(&'a [&'a [Part<'a>]]),
    /// Masks A and B.
    Masks(&'a [Rectangle], &'a [Rectangle]),
    /// As many edits of one square each, in turn of both kinds, and then a text.
    Edits(u32, &'a str),
}

/// What there is of a file after a run.
#[derive(Clone, Copy)]
pub enum Left<'a> {
    /// The file is there and has just this in it.
    Is(Content<'a>),
    /// The same as of this other file, or, as of that, no file.
    As(&'a str),
    /// No file.
    Absent,
}

/// A run by a line: how it ends, what it says, in parts, and what it leaves.
pub struct Run<'a> {
    pub line: &'a str,
    pub status: Status,
    pub said: &'a [&'a str],
    pub left: &'a [(&'a str, Left<'a>)],
}

/// Files, and runs over them, one after the other.
pub struct Case<'a> {
    pub what: &'a str,
    pub files: &'a [(&'a str, Content<'a>)],
    pub runs: &'a [Run<'a>],
}

/// The layout of these lists of parts, of which the first is at offset 98.
fn top(alloc: Global, lists: &[&[Part<'_>]]) -> Result<Vec<u8>, AllocError> {
    let mut out = library(alloc)?;
    put_parts(&mut out, &[Part::Begin(b"TOP\0")])?;
    for parts in lists {
        put_parts(&mut out, parts)?;
    }
    put_parts(&mut out, &[Part::End])?;
    finish(&mut out)?;
    Ok(out)
}

/// As many edits of one square each, and then a text.
fn edits(alloc: Global, count: u32, end: &str) -> Result<Vec<u8>, AllocError> {
    let mut out = Vec::new(alloc);
    for i in 0..count {
        out.extend_from_slice(if i % 2 == 0 {
            b"remove 0 0 1 1\n".as_slice()
        } else {
            b"add 0 0 1 1\n".as_slice()
        })?;
    }
    out.extend_from_slice(end.as_bytes())?;
    Ok(out)
}

/// The bytes of a file.
fn bytes(alloc: Global, content: Content<'_>) -> Result<Vec<u8>, AllocError> {
    match content {
        Content::Text(whole) => Vec::from_slice(alloc, whole.as_bytes()),
        Content::Texts(parts) => text(alloc, parts),
        Content::Bars(layer) => bars(alloc, layer),
        Content::Top(lists) => top(alloc, lists),
        Content::Masks(a, b) => masks(alloc, a, b),
        Content::Edits(count, end) => edits(alloc, count, end),
    }
}

/// A host with these files, of which the listed calls fail.
fn host_of(
    alloc: Global,
    files: &[(&str, Content<'_>)],
    failing: &[Failing],
) -> Result<MemHost, AllocError> {
    let failing = Vec::from_slice(alloc, failing)?;
    let mut named = Vec::new(alloc);
    for (name, content) in files {
        named.push((*name, bytes(alloc, *content)?))?;
    }
    host(alloc, named, 4096, failing)
}

/// Whether there is of a file what there is to be.
fn is_left(alloc: Global, host: &MemHost, name: &str, left: Left<'_>) -> Result<bool, AllocError> {
    match left {
        Left::Is(content) => {
            let bytes = bytes(alloc, content)?;
            Ok(host.file(name) == Some(bytes.as_slice()))
        }
        Left::As(other) => Ok(host.file(name) == host.file(other)),
        Left::Absent => Ok(host.file(name) == None),
    }
}

/// Whether a run ends, says and leaves what it is to.
fn is_right<R: Threads + Wait + Sync>(
    rt: &R,
    alloc: Global,
    run: &Run<'_>,
    host: &mut MemHost,
) -> Result<bool, AllocError> {
    let before = host.said().len();
    let status = answer(rt, alloc, run.line, host)?;
    if status != run.status || !is_text(host.said().get(before..), run.said) {
        return Ok(false);
    }
    for (name, left) in run.left {
        if !is_left(alloc, host, name, *left)? {
            return Ok(false);
        }
    }
    Ok(true)
}

/// The line of the first run that isn't as the case has it.
fn first_wrong<'a, R: Threads + Wait + Sync>(
    rt: &R,
    alloc: Global,
    case: &Case<'a>,
    failing: &[Failing],
) -> Result<Option<&'a str>, AllocError> {
    let mut host = host_of(alloc, case.files, failing)?;
    for run in case.runs {
        if !is_right(rt, alloc, run, &mut host)? {
            return Ok(Some(run.line));
        }
    }
    Ok(None)
}

/// Fails at a run that isn't as the case has it. The listed calls of the host fail.
pub fn holds_where<R: Threads + Wait + Sync>(
    rt: &R,
    alloc: Global,
    case: &Case<'_>,
    failing: &[Failing],
) -> Result<(), Fail> {
    match first_wrong(rt, alloc, case, failing)? {
        Some(line) => Err(Fail::new(format_args!("{}: {line}", case.what))),
        None => Ok(()),
    }
}

/// Fails at the first run that isn't as its case has it.
pub fn all_hold<R: Threads + Wait + Sync>(
    rt: &R,
    alloc: Global,
    cases: &[Case<'_>],
) -> Result<(), Fail> {
    for case in cases {
        holds_where(rt, alloc, case, &[])?;
    }
    Ok(())
}
