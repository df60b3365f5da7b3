//! The two masks of a layer.
use dpl_slabs::Slabs;

/// The squares of mask A and those of mask B. Stitches are on both.
#[derive(Drop)]
pub struct Masks {
    pub a: Slabs,
    pub b: Slabs,
}
