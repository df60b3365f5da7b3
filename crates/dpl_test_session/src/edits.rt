//! Edits that are read, and edits that are made.

use dpl_edits::{EditsFault, MOST_EDITS, edited, read_edits};
use dpl_slabs::Slabs;
use std::alloc::{AllocError, Global};
use std::test::*;

/// Texts, and how many edits each lists, or the number of its first bad line.
static TEXTS: [(&str, Result<usize, u64>); 20] = [
    ("", Ok(0)),
    ("add 0 0 1 1\n", Ok(1)),
    (
        "remove -1000000000 -5 1000000000 7\nadd 0 0 1 1\nadd 0 0 1 1\n",
        Ok(3),
    ),
    ("add 0 0 1 1", Err(1)),
    ("add 0 0 1 1\n\n", Err(2)),
    ("add 0 0 1 1\nremove 0 0 1 1", Err(2)),
    ("add 0 0 1 1\r\n", Err(1)),
    ("add  0 0 1 1\n", Err(1)),
    ("add 0 0 1 1 \n", Err(1)),
    (" add 0 0 1 1\n", Err(1)),
    ("add\t0 0 1 1\n", Err(1)),
    ("Add 0 0 1 1\n", Err(1)),
    ("add 0 0 1\n", Err(1)),
    ("add 0 0 1 1 1\n", Err(1)),
    ("add 0 0 0 1\n", Err(1)),
    ("add 0 1 1 1\n", Err(1)),
    ("add 0 0 1 01\n", Err(1)),
    ("add 0 0 1 +1\n", Err(1)),
    ("add 0 0 1 1\nremove -0 0 1 1\n", Err(2)),
    ("add 0 0 1 1\nadd 0 0 1 1\nadd 0 0 1 1000000001\n", Err(3)),
];

/// Whether a text lists so many edits, or has this first bad line.
fn is_read(alloc: Global, text: &str, want: Result<usize, u64>) -> bool {
    match read_edits(alloc, text.as_bytes()) {
        Ok(edits) => want == Ok(edits.len()),
        Err(EditsFault::BadLine { line }) => want == Err(line),
        Err(EditsFault::NoMemory) => false,
    }
}

#[test]
fn edits_are_read(rt: HostRuntime) {
    for &(text, want) in &TEXTS {
        assert!(rt; is_read(rt.alloc(), text, want), "at {text}");
    }
}

/// A text of so many edits.
fn lines(alloc: Global, count: u64) -> Result<String, AllocError> {
    let mut text = String::new(alloc);
    for _ in 0..count {
        text.push_str("add 0 0 1 1\n")?;
    }
    Ok(text)
}

/// Whether a text of so many edits lists as many as are wanted, or has this first bad line.
fn are_read(alloc: Global, count: u64, want: Result<usize, u64>) -> Result<bool, AllocError> {
    let text = lines(alloc, count)?;
    Ok(is_read(alloc, &text, want))
}

#[test]
fn as_many_edits_as_may_be_are_read(rt: HostRuntime) {
    assert!(rt; are_read(rt.alloc(), MOST_EDITS, Ok(100_000)) == Ok(true));
    assert!(rt; are_read(rt.alloc(), MOST_EDITS + 1, Err(100_001)) == Ok(true));
}

/// The layer after the edits of a text, or nothing where it lists none.
fn after(alloc: Global, layer: Slabs, text: &str) -> Result<Slabs, AllocError> {
    match read_edits(alloc, text.as_bytes()) {
        Ok(edits) => edited(alloc, layer, &edits),
        Err(_) => Ok(Slabs::empty(alloc)),
    }
}

/// Edits of a layer that has the first four columns of one row, and the first eight columns of that row then, with `#` for each that the layer has.
static LISTS: [(&str, &[u8; 8]); 5] = [
    ("", b"####...."),
    ("add 2 0 6 1\n", b"######.."),
    ("add 2 0 6 1\nremove 1 0 5 1\n", b"#....#.."),
    ("add 2 0 6 1\nremove 1 0 5 1\nadd 4 0 5 1\n", b"#...##.."),
    (
        "remove 1 0 5 1\nremove 0 0 1 1\nadd 2 0 6 1\nadd 7 0 8 1\nremove 3 0 4 2\n",
        b"..#.##.#",
    ),
];

/// Whether the first row of a layer has just the columns that have a `#`.
fn has_row(set: &Slabs, row: &[u8; 8]) -> bool {
    for x in 0..8usize {
        if set.has(x as i64, 0) != (row[x] == b'#') {
            return false;
        }
    }
    true
}

/// Whether edits of the first four columns of a row leave this row.
fn leaves(alloc: Global, text: &str, row: &[u8; 8]) -> Result<bool, AllocError> {
    let layer = after(alloc, Slabs::empty(alloc), "add 0 0 4 1\n")?;
    let set = after(alloc, layer, text)?;
    Ok(has_row(&set, row))
}

#[test]
fn edits_are_made_in_order(rt: HostRuntime) {
    for &(text, row) in &LISTS {
        assert!(rt; leaves(rt.alloc(), text, row) == Ok(true), "after {text}");
    }
}

/// Adds the line of an edit that adds or removes a rectangle.
fn push_edit(
    text: &mut String,
    word: &str,
    x0: u64,
    y0: u64,
    x1: u64,
    y1: u64,
) -> Result<(), AllocError> {
    write!(text, "{word} {x0} {y0} {x1} {y1}\n")
}

/// A text of as many edits as may be: by turns one adds two squares of a row, and the next takes away the second of them.
fn in_turn(alloc: Global) -> Result<String, AllocError> {
    let mut text = String::new(alloc);
    for i in 0u64..50_000 {
        let x = 4 * i;
        push_edit(&mut text, "add", x, 0, x + 2, 1)?;
        push_edit(&mut text, "remove", x + 1, 0, x + 2, 1)?;
    }
    Ok(text)
}

/// A column, a row, and whether a layer has the square there.
type Square = (i64, i64, bool);

/// Whether a layer has so many slabs, and of some squares just those that it is said to have.
fn has(set: &Slabs, slabs: usize, squares: &[Square]) -> bool {
    for &(x, y, want) in squares {
        if set.has(x, y) != want {
            return false;
        }
    }
    set.rects().len() == slabs
}

/// Squares beside the first and the last pair that edits make in turn.
static IN_TURN: [Square; 5] = [
    (0, 0, true),
    (1, 0, false),
    (2, 0, false),
    (199_996, 0, true),
    (199_997, 0, false),
];

/// Whether the edits in turn leave a square of each pair.
fn leaves_one_of_two(alloc: Global) -> Result<bool, AllocError> {
    let text = in_turn(alloc)?;
    let set = after(alloc, Slabs::empty(alloc), &text)?;
    Ok(has(&set, 50_000, &IN_TURN))
}

#[test]
fn as_many_edits_as_may_be_are_made(rt: HostRuntime) {
    assert!(rt; leaves_one_of_two(rt.alloc()) == Ok(true));
}

/// A text that takes away every second row of a square, and then every second column of it.
fn grid(alloc: Global) -> Result<String, AllocError> {
    let mut text = String::new(alloc);
    for i in 0u64..2_000 {
        push_edit(&mut text, "remove", 0, 2 * i, 4000, 2 * i + 1)?;
    }
    for i in 0u64..2_000 {
        push_edit(&mut text, "remove", 2 * i, 0, 2 * i + 1, 4000)?;
    }
    Ok(text)
}

/// Squares of a bar from which a grid is taken away.
static IN_BAR: [Square; 5] = [
    (0, 0, false),
    (1, 0, false),
    (0, 1, false),
    (1, 1, true),
    (3_999, 1, true),
];

/// Whether a grid leaves every second square of the second row of a bar.
fn leaves_every_second(alloc: Global) -> Result<bool, AllocError> {
    let bar = after(alloc, Slabs::empty(alloc), "add 0 0 4000 2\n")?;
    let text = grid(alloc)?;
    let set = after(alloc, bar, &text)?;
    Ok(has(&set, 2_000, &IN_BAR))
}

#[test]
fn a_grid_is_taken_away(rt: HostRuntime) {
    assert!(rt; leaves_every_second(rt.alloc()) == Ok(true));
}
