//! Rectangles of different owners that lie closer than a rule.

use dpl_base::Rect;
use dpl_join::{Item, Join, Pair};
use std::alloc::{AllocError, Global};

/// A tall rectangle.
const TALL: Item = Item {
    rect: Rect {
        x0: 0,
        y0: 0,
        x1: 10,
        y1: 10_000,
    },
    owner: 9,
};

/// One that lies 9 columns beside it, one that lies 10 beside it, and the tall one twice.
static ITEMS: [Item; 4] = [
    Item {
        rect: Rect {
            x0: 19,
            y0: 9_000,
            x1: 29,
            y1: 9_010,
        },
        owner: 7,
    },
    Item {
        rect: Rect {
            x0: 20,
            y0: 5_000,
            x1: 30,
            y1: 5_010,
        },
        owner: 8,
    },
    TALL,
    TALL,
];

/// Whether just these pairs of the items lie closer than a rule of 10.
fn are_pairs(alloc: Global, want: &[Pair]) -> Result<bool, AllocError> {
    let items = Vec::from_slice(alloc, &ITEMS)?;
    let join = Join::of(alloc, items, 10)?;
    let mut pairs = join.pairs(alloc)?;
    pairs.sort_unstable();
    Ok(pairs.as_slice() == want)
}

#[test]
fn pairs_at_the_rule(rt: HostRuntime) {
    assert!(rt; are_pairs(rt.alloc(), &[(0, 2), (0, 3)]) == Ok(true));
}
