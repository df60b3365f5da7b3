//! What a file holds: lines and JSON.
use crate::said::Said::{self, Begins, Ends, Has, Is};
use crate::said::are_so;
use dpl_show::{content_json, content_lines};
use dpl_test_sample::{Part, Rectangle, finish, library, put_parts};
use dpl_view::{Contents, Look, look_into};
use std::alloc::{AllocError, Global};
use std::test::Fail;

const LIMIT: usize = 268_435_456;

const BAR: Rectangle = [0, 0, 20, 100];

/// A structure with elements of each kind.
static SUB: [Part<'static>; 31] = [
    Part::Begin(b"SUB\0"),
    Part::Bar(1, BAR),
    // a path
    Part::Record(9, 0, &[]),
    Part::Record(13, 2, &[0, 2]),
    Part::Record(14, 2, &[0, 5]),
    Part::Numbers(15, &[4]),
    Part::Numbers(16, &[0, 0, 9, 0]),
    Part::Record(17, 0, &[]),
    // a path of width 0
    Part::Record(9, 0, &[]),
    Part::Record(13, 2, &[0, 2]),
    Part::Record(14, 2, &[0, 5]),
    Part::Numbers(16, &[0, 0, 9, 0]),
    Part::Record(17, 0, &[]),
    // a text of type -1
    Part::Record(12, 0, &[]),
    Part::Record(13, 2, &[0, 1]),
    Part::Record(22, 2, &[255, 255]),
    Part::Numbers(16, &[0, 0]),
    Part::Record(25, 6, b"hi"),
    Part::Record(17, 0, &[]),
    // a node
    Part::Record(21, 0, &[]),
    Part::Record(13, 2, &[0, 1]),
    Part::Record(42, 2, &[0, 0]),
    Part::Numbers(16, &[0, 0]),
    Part::Record(17, 0, &[]),
    // a box
    Part::Record(45, 0, &[]),
    Part::Record(13, 2, &[0, 1]),
    Part::Record(46, 2, &[0, 0]),
    Part::Numbers(16, &[0, 0, 5, 0, 5, 5, 0, 5, 0, 0]),
    Part::Record(17, 0, &[]),
    Part::Bar(1, BAR),
    Part::End,
];

/// An array of two columns and three rows of it, and a bar.
static TOP: [Part<'static>; 8] = [
    Part::Begin(b"TOP\0"),
    Part::Record(11, 0, &[]),
    Part::Record(18, 6, b"SUB\0"),
    Part::Record(19, 2, &[0, 2, 0, 3]),
    Part::Numbers(16, &[0, 0, 200, 0, 0, 600]),
    Part::Record(17, 0, &[]),
    Part::Bar(7, BAR),
    Part::End,
];

/// A second structure that no reference names.
static OTHER: [Part<'static>; 3] = [Part::Begin(b"O T\0"), Part::Bar(7, BAR), Part::End];

/// A reference to a structure that isn't there.
static LOST: [Part<'static>; 6] = [
    Part::Begin(b"TOP\0"),
    Part::Record(10, 0, &[]),
    Part::Record(18, 6, b"GONE"),
    Part::Numbers(16, &[0, 0]),
    Part::Record(17, 0, &[]),
    Part::End,
];

/// The structures that files are of.
#[derive(Clone, Copy)]
enum Structure {
    Sub,
    Top,
    Other,
    Lost,
}

/// The parts of a structure.
fn parts_of(structure: Structure) -> &'static [Part<'static>] {
    match structure {
        Structure::Sub => &SUB,
        Structure::Top => &TOP,
        Structure::Other => &OTHER,
        Structure::Lost => &LOST,
    }
}

/// The file of structures.
fn file_of(alloc: Global, structures: &[Structure]) -> Result<Vec<u8>, AllocError> {
    let mut out = library(alloc)?;
    for structure in structures {
        put_parts(&mut out, parts_of(*structure))?;
    }
    finish(&mut out)?;
    Ok(out)
}

/// The structures of a file, the name of the top, if one is named, and what is said of the file, as lines and as JSON.
struct Case {
    structures: &'static [Structure],
    top: Option<&'static str>,
    lines: &'static [Said<'static>],
    json: &'static [Said<'static>],
}

/// Whether this is said of the contents of a file.
fn are_told(alloc: Global, contents: &Contents, case: &Case) -> Result<bool, AllocError> {
    let lines = content_lines(alloc, contents)?;
    let json = content_json(alloc, contents)?;
    Ok(are_so(lines.as_str(), case.lines) && are_so(json.as_str(), case.json))
}

/// Whether this is said of a file; of one that is refused, the fault is looked at.
fn holds(alloc: Global, case: &Case) -> Result<bool, AllocError> {
    let bytes = file_of(alloc, case.structures)?;
    if bytes.len() <= LIMIT {
        match look_into(alloc, case.top, bytes.as_slice())? {
            Look::Held(contents) => are_told(alloc, &contents, case),
            Look::Refused { name, at } => {
                let fault = format!(in alloc; "{name} {at}")?;
                Ok(are_so(fault.as_str(), case.lines))
            }
        }
    } else {
        Ok(false)
    }
}

/// Fails at the first case that doesn't hold, with its number from 0.
fn all_hold(alloc: Global, cases: &[Case]) -> Result<(), Fail> {
    for (number, case) in cases.iter().enumerate() {
        if !holds(alloc, case)? {
            return Err(Fail::new(format_args!("case {number}")));
        }
    }
    Ok(())
}

static TOLD: [Case; 1] = [Case {
    structures: &[Structure::Sub, Structure::Top],
    top: None,
    lines: &[Is(
        "units 0.001 0.000000001\nstructures 2\ntop TOP\nlayer 1 datatype 0 boundaries 2 paths 0 boxes 1 texts 0 nodes 1 points 90\nlayer 1 datatype 65535 boundaries 0 paths 0 boxes 0 texts 1 nodes 0 points 0\nlayer 2 datatype 5 boundaries 0 paths 2 boxes 0 texts 0 nodes 0 points 12\nlayer 7 datatype 0 boundaries 1 paths 0 boxes 0 texts 0 nodes 0 points 5\n",
    )],
    json: &[
        Begins(
            "{\"layers\":[{\"boundaries\":2,\"boxes\":1,\"datatype\":0,\"layer\":1,\"nodes\":1,\"paths\":0,\"points\":90,\"texts\":0},",
        ),
        Has("\"structures\":2,\"tops\":[\"TOP\"],\"units\":{\"metres\":"),
    ],
}];

#[test]
fn layers_are_told(rt: HostRuntime) -> Result<(), Fail> {
    all_hold(rt.alloc(), &TOLD)
}

/// Two tops, of which none is named or one; a top with a reference to a structure that isn't there; and a structure that is there twice.
static TOPS: [Case; 4] = [
    Case {
        structures: &[Structure::Other, Structure::Sub, Structure::Top],
        top: None,
        lines: &[
            Has("\ntop O?T\ntop TOP\n"),
            Ends(" nodes 0 points -\npoints no ManyTops 2\n"),
        ],
        json: &[Has("\"unplaced\":{\"at\":2,\"refused\":\"ManyTops\"}")],
    },
    Case {
        structures: &[Structure::Other, Structure::Sub, Structure::Top],
        top: Some("SUB"),
        lines: &[
            Has("layer 1 datatype 0 boundaries 2 paths 0 boxes 1 texts 0 nodes 1 points 15\n"),
            Ends("layer 7 datatype 0 boundaries 2 paths 0 boxes 0 texts 0 nodes 0 points 0\n"),
        ],
        json: &[],
    },
    Case {
        structures: &[Structure::Lost],
        top: None,
        lines: &[Ends("structures 1\ntop TOP\npoints no MissingStructure 98\n")],
        json: &[],
    },
    Case {
        structures: &[Structure::Top, Structure::Sub, Structure::Top],
        top: None,
        lines: &[Begins("DuplicateStructure ")],
        json: &[],
    },
];

#[test]
fn points_are_told_where_there_is_one_top(rt: HostRuntime) -> Result<(), Fail> {
    all_hold(rt.alloc(), &TOPS)
}
