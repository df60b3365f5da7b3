//! Made-up layouts of one row and of two.
ghost use Rattle.std.specs.Prelude.{◌≤◌};

use dpl_demo::demo_bytes;
use dpl_test_sample::{Part, finish, put_parts};
use std::alloc::{AllocError, Global};
use std::test::Fail;

/// What one row has. The gap begins at 714.
static ONE: [Part<'static>; 3] = [
    Part::Bar(1, [0, 0, 714, 20]),
    Part::Bar(1, [814, 0, 2000, 20]),
    Part::End,
];

/// What two rows have. The second gap begins at 1749.
static TWO: [Part<'static>; 5] = [
    Part::Bar(1, [0, 0, 714, 20]),
    Part::Bar(1, [814, 0, 2000, 20]),
    Part::Bar(1, [0, 40, 1749, 60]),
    Part::Bar(1, [1849, 40, 2000, 60]),
    Part::End,
];

/// Whether just these parts and ENDLIB stand in so many rows of the seed 0, from offset 98 on.
fn has_parts(alloc: Global, rows: u32, parts: &[Part<'_>]) -> Result<bool, AllocError>
    requires { (1 ≤ rows) × (rows ≤ 1000000) }
{
    let mut want = Vec::new(alloc);
    put_parts(&mut want, parts)?;
    finish(&mut want)?;
    let found = demo_bytes(alloc, 0, rows)?;
    Ok(found.get(98..) == Some(want.as_slice()))
}

#[test]
fn rows_have_their_gaps(rt: HostRuntime) -> Result<(), Fail> {
    assert!(rt; has_parts(rt.alloc(), 1, &ONE)?);
    assert!(rt; has_parts(rt.alloc(), 2, &TWO)?);
    Ok(())
}
