//! One bar's file of 170 bytes, changed, cut or followed by others.

use dpl_test_runs::{AS_ONE, BAR, Done, EMPTY, SPLIT, is_done, is_refused};
use dpl_test_sample::{bars, masks};
use std::alloc::{AllocError, Global};
use std::test::*;

/// One bar's file with other bytes at these places.
fn changed(alloc: Global, places: &[(usize, u8)]) -> Result<Vec<u8>, AllocError> {
    let mut file = bars(alloc, &[BAR])?;
    for &(at, byte) in places {
        if let Some(place) = file.get_mut(at) {
            *place = byte;
        }
    }
    Ok(file)
}

/// A byte at a place, and what the file is then refused for.
static CHANGED: [(usize, u8, &str); 6] = [
    (115, 0x2D, "BadLength 114"),
    (100, 0x3C, "UnknownRecord 98"),
    (101, 2, "BadDataType 98"),
    (115, 0x2A, "BadSize 114"),
    (160, 7, "Unexpected 158"),
    (115, 3, "BadLength 114"),
];

#[test]
fn a_changed_byte_is_told(rt: HostRuntime) -> Result<(), Fail> {
    let alloc = rt.alloc();
    for &(at, byte, fault) in &CHANGED {
        let file = changed(alloc, &[(at, byte)])?;
        assert!(rt; is_refused(&rt, alloc, SPLIT, file, fault)?, "at {at}");
    }
    Ok(())
}

/// Where each record begins and ends, and what a file that ends at its begin or in it is refused for.
static RECORDS: [(usize, usize, &str); 13] = [
    (0, 6, "Truncated 0"),
    (6, 34, "Truncated 6"),
    (34, 42, "Truncated 34"),
    (42, 62, "Truncated 42"),
    (62, 90, "Truncated 62"),
    (90, 98, "Truncated 90"),
    (98, 102, "Truncated 98"),
    (102, 108, "Truncated 102"),
    (108, 114, "Truncated 108"),
    (114, 158, "Truncated 114"),
    (158, 162, "Truncated 158"),
    (162, 166, "Truncated 162"),
    (166, 170, "Truncated 166"),
];

/// The first bytes of one bar's file.
fn cut(alloc: Global, length: usize) -> Result<Vec<u8>, AllocError> {
    let mut file = bars(alloc, &[BAR])?;
    file.truncate(length);
    Ok(file)
}

#[test]
fn a_cut_file_is_truncated_at_its_last_record(rt: HostRuntime) -> Result<(), Fail> {
    let alloc = rt.alloc();
    for &(begin, end, fault) in &RECORDS {
        for length in begin..end {
            let file = cut(alloc, length)?;
            assert!(rt;
                is_refused(&rt, alloc, SPLIT, file, fault)?,
                "at {length} bytes"
            );
        }
    }
    Ok(())
}

#[test]
fn a_file_past_the_limit_is_too_large(rt: HostRuntime) -> Result<(), Fail> {
    let alloc = rt.alloc();
    let file = vec![in alloc; 0u8; 268_435_457]?;
    assert!(rt; is_refused(&rt, alloc, SPLIT, file, "TooLarge 268435456")?);
    Ok(())
}

/// Bytes 0 are no record.
#[test]
fn a_file_at_the_limit_is_read(rt: HostRuntime) -> Result<(), Fail> {
    let alloc = rt.alloc();
    let file = vec![in alloc; 0u8; 268_435_456]?;
    assert!(rt; is_refused(&rt, alloc, SPLIT, file, "BadLength 0")?);
    Ok(())
}

/// One bar's file and bytes 0 behind it.
fn followed(alloc: Global) -> Result<Vec<u8>, AllocError> {
    let mut file = bars(alloc, &[BAR])?;
    file.extend_from_slice(&[0; 1878])?;
    Ok(file)
}

#[test]
fn bytes_behind_the_library_are_ignored(rt: HostRuntime) -> Result<(), Fail> {
    let alloc = rt.alloc();
    let file = followed(alloc)?;
    assert!(rt; is_done(&rt, alloc, SPLIT, file, &AS_ONE)?);
    assert!(rt; masks(alloc, &[BAR], &[])?.len() == 170);
    Ok(())
}

/// The bytes of the datatype 65535.
const OTHER_TYPE: &[(usize, u8)] = &[(112, 0xFF), (113, 0xFF)];

/// A command, the bytes that one bar's file has at other places, and what is done.
static CHOSEN: [(&str, &[(usize, u8)], Done<'static>); 3] = [
    (
        "dpl split --layer 9 --rule 30 --overlap 10 in out cert",
        &[],
        EMPTY,
    ),
    (SPLIT, OTHER_TYPE, EMPTY),
    (
        "dpl split --layer 1 --datatype 65535 --rule 30 --overlap 10 in out cert",
        OTHER_TYPE,
        AS_ONE,
    ),
];

#[test]
fn a_layer_is_chosen_by_both_numbers(rt: HostRuntime) -> Result<(), Fail> {
    let alloc = rt.alloc();
    for (line, places, done) in &CHOSEN {
        let file = changed(alloc, places)?;
        assert!(rt; is_done(&rt, alloc, line, file, done)?, "at {line}");
    }
    assert!(rt; masks(alloc, &[], &[])?.len() == 106);
    Ok(())
}
