//! Layers so large that workers may share the sweep, the columns, the zones, near slabs, edges, pieces, and both files. No answer shows it.

use dpl_host::MemHost;
use dpl_test_runs::{answer, host_with};
use dpl_test_sample::{Rectangle, bars};
use std::alloc::{AllocError, Global};
use std::sync::Wait;
use std::test::*;
use std::thread::Threads;

/// How many rows of two bars there are.
const ROWS: u16 = 34_000;

/// How many wires go along x, and how many along y.
const WIRES: u16 = 100;

const ONE: &str = "dpl split --layer 1 --rule 30 --overlap 10 --workers 1 in out cert";

/// By more workers.
static MORE: [&str; 2] = [
    "dpl split --layer 1 --rule 30 --overlap 10 --workers 2 in out cert",
    "dpl split --layer 1 --rule 30 --overlap 10 --workers 4 in out cert",
];

/// What is said of the layer. A second program, in plain Rust and without proofs, says the same.
const DONE: &str = "done features 68001 pieces 102298 zones 44098 stitches 0 a 44200 b 34000\n";

/// Three squares in conflict.
static TRIANGLE: [Rectangle; 3] = [
    [0, -1_000, 10, -990],
    [20, -1_000, 30, -990],
    [10, -980, 20, -970],
];

const CONFLICT: &str = "conflict cycle 3\n";

/// The two bars of a row.
fn bars_of_row(row: u16) -> [Rectangle; 2] {
    let gap = if row % 2 == 0 { 500 } else { 1_400 };
    let y = 40 * row as i32;
    [[0, y, gap, y + 20], [gap + 100, y, 2_000, y + 20]]
}

/// A wire along y, and one along x.
fn wires(number: u16) -> [Rectangle; 2] {
    let at = 200 * number as i32;
    [
        [10_000 + at, 0, 10_020 + at, 20_000],
        [10_000, at + 90, 30_000, at + 110],
    ]
}

/// Rows of two bars, each near those of the next row, and as one feature wires that cross. In each row one bar has a zone beside the gap of the next row, and the wires have thousands.
fn rectangles(alloc: Global, more: &[Rectangle]) -> Result<Vec<Rectangle>, AllocError> {
    let mut all = Vec::from_slice(alloc, more)?;
    for row in 0..ROWS {
        all.extend_from_slice(&bars_of_row(row))?;
    }
    for number in 0..WIRES {
        all.extend_from_slice(&wires(number))?;
    }
    Ok(all)
}

/// The file of the layer, with more rectangles in front.
fn file_of(alloc: Global, more: &[Rectangle]) -> Result<Vec<u8>, AllocError> {
    let rectangles = rectangles(alloc, more)?;
    bars(alloc, rectangles.as_slice())
}

/// The host behind a run of the line on this file.
fn run_on<R: Threads + Wait + Sync>(
    rt: &R,
    alloc: Global,
    line: &str,
    file: &[u8],
) -> Result<MemHost, AllocError> {
    let mut host = host_with(alloc, &[("in", file)], 1_048_576, &[])?;
    answer(rt, alloc, line, &mut host)?;
    Ok(host)
}

/// Whether two runs said the same, and left the same masks and the same certificate.
fn are_alike(many: &MemHost, one: &MemHost) -> bool {
    many.said() == one.said()
        && many.file("out") == one.file("out")
        && many.file("cert") == one.file("cert")
}

/// Whether a run of the line on this file is like the one by one worker.
fn is_like<R: Threads + Wait + Sync>(
    rt: &R,
    alloc: Global,
    line: &str,
    file: &[u8],
    one: &MemHost,
) -> Result<bool, AllocError> {
    let many = run_on(rt, alloc, line, file)?;
    Ok(are_alike(&many, one))
}

/// Whether this is said of the file by one worker, and the same by two and by four, which leave the same masks and certificate.
fn is_said_alike<R: Threads + Wait + Sync>(
    rt: &R,
    alloc: Global,
    file: &[u8],
    said: &str,
) -> Result<bool, AllocError> {
    let one = run_on(rt, alloc, ONE, file)?;
    for line in &MORE {
        if !is_like(rt, alloc, line, file, &one)? {
            return Ok(false);
        }
    }
    Ok(one.said() == said.as_bytes())
}

/// Whether this is said of the layer with more rectangles, by all numbers of workers.
fn is_split_alike<R: Threads + Wait + Sync>(
    rt: &R,
    alloc: Global,
    more: &[Rectangle],
    said: &str,
) -> Result<bool, AllocError> {
    let file = file_of(alloc, more)?;
    is_said_alike(rt, alloc, file.as_slice(), said)
}

#[test]
fn large_layers_are_split_alike_by_all_workers(rt: HostRuntime) -> Result<(), Fail> {
    assert!(rt; is_split_alike(&rt, rt.alloc(), &[], DONE)?);
    assert!(rt; is_split_alike(&rt, rt.alloc(), &TRIANGLE, CONFLICT)?);
    Ok(())
}
