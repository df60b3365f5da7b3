//! Worked eight-byte reals.
use dpl_reals::Real;

/// The first three bytes, whether it is 1, and the quarter turns.
static ROWS: [([u8; 3], bool, Option<u8>); 16] = [
    ([0x41, 0x10, 0], true, None),
    ([0x42, 0x01, 0], true, None),
    ([0x42, 0x5A, 0], false, Some(1)),
    ([0x42, 0xB4, 0], false, Some(2)),
    ([0x43, 0x10, 0xE0], false, Some(3)),
    ([0x43, 0x16, 0x80], false, Some(0)),
    ([0x42, 0x2D, 0], false, None),
    ([0x41, 0x20, 0], false, None),
    ([0xC2, 0x5A, 0], false, Some(3)),
    ([0xC1, 0x10, 0], false, None),
    ([0x80, 0, 0], false, Some(0)),
    ([0, 0, 0], false, Some(0)),
    ([0x44, 0x00, 0x5A], false, Some(1)),
    ([0x43, 0x00, 0x10], true, None),
    ([0x7F, 0x5A, 0], false, Some(0)),
    ([0x42, 0x5A, 0x01], false, None),
];

#[test]
fn reals_of_a_table(rt: HostRuntime) {
    for &([a, b, c], one, turns) in &ROWS {
        let real = Real::of([a, b, c, 0, 0, 0, 0, 0]);
        assert!(rt; real.is_one() == one && real.quarter_turns() == turns);
    }
}
