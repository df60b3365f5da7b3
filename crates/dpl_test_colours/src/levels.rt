//! A worked graph, with its roots and levels.
use dpl_list::Edge;
use dpl_stars::{are_edges_below, levels_of};
use std::test::Fail;

/// The edges of seven numbers.
static EDGES: [Edge; 5] = [(1, 4), (0, 2), (2, 5), (3, 5), (0, 3)];

#[test]
fn finds_roots_and_levels(rt: HostRuntime) -> Result<(), Fail> {
    assert!(rt; are_edges_below(7, &EDGES));
    let found = levels_of(rt.alloc(), 7, &EDGES)?;
    assert!(rt; found.roots.as_slice() == [0, 1, 0, 0, 1, 0, 6].as_slice());
    assert!(rt; found.levels.as_slice() == [0, 0, 1, 1, 1, 2, 0].as_slice());
    Ok(())
}
