//! Worked placements of a point.
use dpl_base::Pt;
use dpl_place::{Place, compose};

/// A placement, and where it takes (30,10).
static ROWS: [(bool, u8, i64, i64, i64, i64); 5] = [
    (false, 0, 5, 6, 35, 16),
    (false, 1, 0, 0, -10, 30),
    (false, 3, 0, 0, 10, -30),
    (true, 0, 0, 0, 30, -10),
    (true, 1, 100, 200, 110, 230),
];

#[test]
fn placements_of_a_table(rt: HostRuntime) {
    for &(reflect, turns, dx, dy, x, y) in &ROWS {
        assert!(rt; turns < 4 && dx.unsigned_abs() <= 1000 && dy.unsigned_abs() <= 1000);
        let place = Place::new(reflect, turns, dx, dy);
        assert!(rt; place.apply(Pt { x: 30, y: 10 }) == Pt { x, y });
        assert!(rt; compose(&place, &Place::unit()) == place);
    }
}
