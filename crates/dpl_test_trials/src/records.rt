//! Records that stand where the grammar has none, and names.

use dpl_test_runs::{AS_ONE, SPLIT, is_done, is_refused};
use dpl_test_sample::{Part, layout};
use std::test::*;

const TOP: Part<'static> = Part::Begin(b"TOP\0");

const BAR: Part<'static> = Part::Bar(1, [0, 0, 100, 20]);

const FLAGS: Part<'static> = Part::Record(38, 1, &[0, 0]);

const PLEX: Part<'static> = Part::Numbers(47, &[7]);

const LAYER: Part<'static> = Part::Record(13, 2, &[0, 1]);

const DATATYPE: Part<'static> = Part::Record(14, 2, &[0, 0]);

const LOOP: Part<'static> = Part::Numbers(16, &[0, 0, 100, 0, 100, 20, 0, 20, 0, 0]);

const BOUNDARY: Part<'static> = Part::Record(8, 0, &[]);

const ENDEL: Part<'static> = Part::Record(17, 0, &[]);

/// One bar, with both optional records.
static IN_PLACE: [Part<'static>; 9] = [
    TOP,
    BOUNDARY,
    FLAGS,
    PLEX,
    LAYER,
    DATATYPE,
    LOOP,
    ENDEL,
    Part::End,
];

#[test]
fn an_optional_record_may_stand_in_its_place(rt: HostRuntime) -> Result<(), Fail> {
    let alloc = rt.alloc();
    let file = layout(alloc, &[&IN_PLACE])?;
    assert!(rt; is_done(&rt, alloc, SPLIT, file, &AS_ONE)?);
    Ok(())
}

/// The parts of a file, and what it is refused for.
static REFUSED: [(&[Part<'static>], &str); 16] = [
    // An optional record behind its place, twice, and in exchanged order.
    (
        &[
            TOP,
            BOUNDARY,
            LAYER,
            FLAGS,
            DATATYPE,
            LOOP,
            ENDEL,
            Part::End,
        ],
        "Unexpected 108",
    ),
    (
        &[
            TOP,
            BOUNDARY,
            FLAGS,
            FLAGS,
            LAYER,
            DATATYPE,
            LOOP,
            ENDEL,
            Part::End,
        ],
        "Unexpected 108",
    ),
    (
        &[
            TOP,
            BOUNDARY,
            PLEX,
            FLAGS,
            LAYER,
            DATATYPE,
            LOOP,
            ENDEL,
            Part::End,
        ],
        "Unexpected 110",
    ),
    // Points twice, or missing.
    (
        &[TOP, BOUNDARY, LAYER, DATATYPE, LOOP, LOOP, ENDEL, Part::End],
        "Unexpected 158",
    ),
    (
        &[TOP, BOUNDARY, LAYER, DATATYPE, ENDEL, Part::End],
        "Unexpected 114",
    ),
    // An element outside a structure, and a structure inside one.
    (&[BAR], "Unexpected 62"),
    (&[TOP, BAR, TOP, Part::End], "Unexpected 162"),
    // Records of no type, of another data type and of another size; types that are passed over have any.
    (
        &[Part::Record(0x3B, 9, &[]), Part::Record(0x14, 0, &[])],
        "UnknownRecord 66",
    ),
    (&[Part::Record(0x3C, 0, &[])], "UnknownRecord 62"),
    (&[TOP, BAR, Part::Record(7, 1, &[])], "BadDataType 162"),
    (&[TOP, BOUNDARY, Part::Record(13, 2, &[])], "BadSize 102"),
    (
        &[TOP, BOUNDARY, LAYER, DATATYPE, Part::Record(16, 3, &[])],
        "BadSize 114",
    ),
    // No name, in four bytes and in none, and a name that was there.
    (&[Part::Begin(b"\0\0\0\0"), BAR, Part::End], "BadName 90"),
    (&[Part::Begin(b""), BAR, Part::End], "BadName 90"),
    (
        &[
            Part::Begin(b"SUB\0"),
            BAR,
            Part::End,
            Part::Begin(b"SUB\0"),
            Part::End,
        ],
        "DuplicateStructure 194",
    ),
    (
        &[
            Part::Begin(b"A\0"),
            BAR,
            Part::End,
            Part::Begin(b"A\0"),
            Part::End,
        ],
        "DuplicateStructure 192",
    ),
];

#[test]
fn records_and_names_are_refused(rt: HostRuntime) -> Result<(), Fail> {
    let alloc = rt.alloc();
    for &(parts, fault) in &REFUSED {
        let file = layout(alloc, &[parts])?;
        assert!(rt; is_refused(&rt, alloc, SPLIT, file, fault)?, "at {fault}");
    }
    Ok(())
}
