//! Worked layouts by a corner rule below the rule.
ghost use Rattle.std.specs.Prelude.{◌≤◌};

use crate::bars::{Corners, features_of};
use crate::conflicts::has_conflicts;
use crate::zones::are_zones;
use dpl_base::{Spacing, Zone, reach};
use dpl_slabs::Slabs;
use dpl_zone::zones;
use std::alloc::{AllocError, Global};
use std::test::Fail;

/// Bars whose ends are across a corner from where a stretch of the bar below them may begin and end.
const BARS: [Corners; 3] = [(0, 0, 157, 20), (0, 40, 50, 60), (107, 40, 157, 60)];

/// The zones of the bars by a spacing.
fn zones_of_bars(alloc: Global, spacing: Spacing) -> Result<Vec<Zone>, AllocError>
    requires corner { spacing.corner ≤ spacing.rule }
{
    let parts = features_of(alloc, &BARS)?;
    zones(alloc, &parts, spacing, 10, &Slabs::empty(alloc))
}

/// Rows between squares, and the most columns that may lie between them where they are near, by a rule of 30 and a corner rule of 25.
static REACHES: [(u64, Option<u32>); 4] = [
    (0, Some(29)),
    (20, Some(14)),
    (25, Some(0)),
    (30, None),
];

#[test]
fn stretches_begin_where_the_corner_rule_ends(rt: HostRuntime) -> Result<(), Fail> {
    let spacing = Spacing {
        rule: 30,
        corner: 25,
    };
    for &(rows, want) in &REACHES {
        assert!(rt; reach(spacing, rows) == want);
    }
    let found = zones_of_bars(rt.alloc(), spacing)?;
    assert!(rt; are_zones(found.as_slice(), &[((73, 0, 83, 20), 0)]));
    Ok(())
}

/// Two squares whose corners are 18 columns and 23 rows apart, a squared distance of 853.
static ACROSS: [Corners; 2] = [(0, 0, 10, 10), (28, 33, 38, 43)];

#[test]
fn corners_are_near_by_the_corner_rule(rt: HostRuntime) {
    let at_30 = Spacing::uniform(30);
    assert!(rt; has_conflicts(rt.alloc(), &ACROSS, &[0, 1], at_30, &[(0, 1)]) == Ok(true));
    let at_29 = Spacing {
        rule: 30,
        corner: 29,
    };
    assert!(rt; has_conflicts(rt.alloc(), &ACROSS, &[0, 1], at_29, &[]) == Ok(true));
}
