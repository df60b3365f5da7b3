//! Workers that share the tiles of one layer.

use dpl_pool::Gate;
use dpl_run::{Status, run};
use dpl_test_gates::{Assembly, Counts, Crowd, Holds};
use dpl_test_runs::host_with;
use dpl_test_sample::{Part, layout, words};
use std::alloc::{AllocError, Global};
use std::sync::Wait;
use std::test::*;
use std::thread::Threads;

/// A command that workers share: its words, the parts of its layout, and what it says, where that is looked at.
struct Shared {
    line: &'static str,
    parts: &'static [Part<'static>],
    said: Option<&'static str>,
}

/// One bar.
const BAR: &[Part<'static>] = &[
    Part::Begin(b"TOP\0"),
    Part::Bar(1, [0, 0, 100, 20]),
    Part::End,
];

const BAR_LINE: Option<&str> = Some("done features 1 pieces 1 zones 0 stitches 0 a 1 b 0\n");

const DEMO_LINE: Option<&str> = Some("demo features 2 pieces 2 zones 0 stitches 0 a 2 b 0\n");

/// Whether a command is done with its line, where workers pass this gate.
fn is_done<R: Threads + Wait + Sync, G: Gate + Sync>(
    rt: &R,
    alloc: Global,
    shared: &Shared,
    gate: &G,
) -> Result<bool, AllocError> {
    let file = layout(alloc, &[shared.parts])?;
    let mut host = host_with(alloc, &[("in", file.as_slice())], 4096, &[])?;
    let words = words(alloc, shared.line)?;
    let status = run(rt, alloc, &words, &mut host, gate);
    let is_said = match shared.said {
        Some(said) => host.said() == said.as_bytes(),
        None => true,
    };
    Ok(status == Status::Done && is_said)
}

/// The line of the first of these commands that isn't done, or whose gate gave up, where either of two tiles waits until the other has come or was posted.
fn first_failed<R: Threads + Wait + Sync>(
    rt: &R,
    alloc: Global,
    commands: &'static [Shared],
    waits_for_post: bool,
) -> Result<Option<&'static str>, AllocError> {
    for shared in commands {
        for (held, other) in [(0, 1), (1, 0)] {
            let gate = Holds::new(held, other, waits_for_post);
            if !is_done(rt, alloc, shared, &gate)? || gate.has_given_up() {
                return Ok(Some(shared.line));
            }
        }
    }
    Ok(None)
}

static ON_TWO_TILES: [Shared; 2] = [
    Shared {
        line: "dpl split --layer 1 --rule 30 --overlap 10 --tile 50 --workers 2 in out cert",
        parts: BAR,
        said: BAR_LINE,
    },
    Shared {
        line: "dpl demo --seed 0 --rows 1 --tile 1000 --workers 2",
        parts: &[],
        said: DEMO_LINE,
    },
];

#[test]
fn two_tiles_meet(rt: HostRuntime) -> Result<(), Fail> {
    let failed = first_failed(&rt, rt.alloc(), &ON_TWO_TILES, false)?;
    assert_eq!(rt; failed, None);
    Ok(())
}

#[test]
fn posted_early(rt: HostRuntime) -> Result<(), Fail> {
    let failed = first_failed(&rt, rt.alloc(), &ON_TWO_TILES, true)?;
    assert_eq!(rt; failed, None);
    Ok(())
}

/// A bar on each of two layers.
static TWO_LAYERS: [Shared; 1] = [Shared {
    line: "dpl batch --rule 30 --overlap 10 --tile 1000 --workers 2 in p 1 2",
    parts: &[
        Part::Begin(b"TOP\0"),
        Part::Bar(1, [0, 0, 100, 20]),
        Part::Bar(2, [0, 0, 100, 20]),
        Part::End,
    ],
    said: None,
}];

#[test]
fn tiles_of_two_layers_meet(rt: HostRuntime) -> Result<(), Fail> {
    let failed = first_failed(&rt, rt.alloc(), &TWO_LAYERS, false)?;
    assert_eq!(rt; failed, None);
    Ok(())
}

static ON_MORE_TILES: [Shared; 2] = [
    Shared {
        line: "dpl split --layer 1 --rule 30 --overlap 10 --tile 40 --workers 2 in out cert",
        parts: BAR,
        said: BAR_LINE,
    },
    Shared {
        line: "dpl demo --seed 0 --rows 1 --tile 500 --workers 2",
        parts: &[],
        said: DEMO_LINE,
    },
];

#[test]
fn no_more_workers_come_than_asked_for(rt: HostRuntime) -> Result<(), Fail> {
    for shared in &ON_MORE_TILES {
        let gate = Crowd::new(2);
        let is_done = is_done(&rt, rt.alloc(), shared, &gate)?;
        assert!(rt;
            is_done && gate.most() <= 2 && gate.strangers() == 0,
            "at {}",
            shared.line
        );
    }
    Ok(())
}

/// Commands on 125 tiles, and how many workers share them.
static ON_MANY_TILES: [(u32, Shared); 2] = [
    (
        3,
        Shared {
            line: "dpl split --layer 1 --rule 30 --overlap 10 --tile 4 --workers 3 in out cert",
            parts: BAR,
            said: BAR_LINE,
        },
    ),
    (
        64,
        Shared {
            line: "dpl split --layer 1 --rule 30 --overlap 10 --tile 4 --workers 64 in out cert",
            parts: BAR,
            said: BAR_LINE,
        },
    ),
];

#[test]
fn as_many_workers_come_as_asked_for(rt: HostRuntime) -> Result<(), Fail> {
    for (asked, shared) in &ON_MANY_TILES {
        let gate = Assembly::new(*asked);
        let is_done = is_done(&rt, rt.alloc(), shared, &gate)?;
        assert!(rt; is_done && !gate.has_given_up(), "at {asked} workers");
    }
    Ok(())
}

/// How often a tile was entered, where a command is done with its line.
fn entered<R: Threads + Wait + Sync>(
    rt: &R,
    alloc: Global,
    shared: &Shared,
) -> Result<Option<u64>, AllocError> {
    let gate = Counts::new();
    if is_done(rt, alloc, shared, &gate)? {
        Ok(Some(gate.entered()))
    } else {
        Ok(None)
    }
}

static PLATE: Shared = Shared {
    line: "dpl split --layer 1 --rule 30 --overlap 10 --tile 64 in out cert",
    parts: &[
        Part::Begin(b"TOP\0"),
        Part::Bar(1, [0, 0, 30_000, 30_000]),
        Part::End,
    ],
    said: None,
};

#[test]
fn a_plate_has_few_tiles(rt: HostRuntime) -> Result<(), Fail> {
    let count = entered(&rt, rt.alloc(), &PLATE)?;
    assert!(rt; matches!(count, Some(0..=65_540)));
    Ok(())
}

static ONE_WORKER: Shared = Shared {
    line: "dpl split --layer 1 --rule 30 --overlap 10 --tile 4 --workers 1 in out cert",
    parts: BAR,
    said: BAR_LINE,
};

#[test]
fn one_worker_makes_no_tiles(rt: HostRuntime) -> Result<(), Fail> {
    let count = entered(&rt, rt.alloc(), &ONE_WORKER)?;
    assert!(rt; count == Some(0));
    Ok(())
}

static MOST_PIECES: Shared = Shared {
    line: "dpl demo --seed 0 --rows 1997 --workers 2",
    parts: &[],
    said: None,
};

static MORE_PIECES: Shared = Shared {
    line: "dpl demo --seed 0 --rows 1998 --workers 2",
    parts: &[],
    said: None,
};

/// The first has 4,096 pieces of one slab each, the second two more.
#[test]
fn a_large_layer_has_no_tiles(rt: HostRuntime) -> Result<(), Fail> {
    let count = entered(&rt, rt.alloc(), &MOST_PIECES)?;
    assert!(rt; matches!(count, Some(1..)));
    let count = entered(&rt, rt.alloc(), &MORE_PIECES)?;
    assert!(rt; count == Some(0));
    Ok(())
}
