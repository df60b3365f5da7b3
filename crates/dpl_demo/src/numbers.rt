//! The numbers of a made-up layout.
ghost use Rattle.std.specs.Prelude.{◌≡◌};
ghost use Rattle.dpl_demo.specs.Demo.{gap_by, next_number as next_number_of};

/// The number behind this one, by a linear congruence modulo 2^64.
pub(crate) fn next_number(number: u64) -> u64
    ensures { result ≡ next_number_of number }
{
    number
        .wrapping_mul(6_364_136_223_846_793_005)
        .wrapping_add(1_442_695_040_888_963_407)
}

/// Where the gap that a number gives begins, from 100 to 1799.
pub(crate) fn gap_of(number: u64) -> u32
    ensures { result ≡ gap_by number }
{
    100 + ((number >> 32) % 1_700) as u32
}
