//! The loops of boundaries.
use dpl_base::Pt;
use dpl_shapes::boundary_loop;
use std::test::*;

/// An L of six corners, with its first corner once more at its end.
static CORNERS: [Pt; 7] = [
    Pt { x: 0, y: 0 },
    Pt { x: 20, y: 0 },
    Pt { x: 20, y: 10 },
    Pt { x: 10, y: 10 },
    Pt { x: 10, y: 30 },
    Pt { x: 0, y: 30 },
    Pt { x: 0, y: 0 },
];

/// A triangle: its last edge is slanted.
static TRIANGLE: [Pt; 3] = [Pt { x: 0, y: 0 }, Pt { x: 20, y: 0 }, Pt { x: 20, y: 10 }];

#[test]
fn boundaries_have_loops(rt: HostRuntime) -> Result<(), Fail> {
    let drawn = boundary_loop(rt.alloc(), &CORNERS)?;
    assert!(rt; drawn.items() == CORNERS.as_slice());
    assert!(rt; boundary_loop(rt.alloc(), &TRIANGLE).is_err());
    Ok(())
}
