//! What a layer is decomposed into.
use dpl_base::Listed;
use dpl_cert::{Gain, Head, NearLine, PieceLine, PlaceLine, StitchLine};
use dpl_slabs::Slabs;

/// Both masks, and what their certificate tells of them.
#[derive(Drop)]
pub struct Painted {
    /// The squares of the first mask.
    pub a: Slabs,
    /// The squares of the second mask.
    pub b: Slabs,
    /// The rules, and how many features, pieces and zones there are.
    pub head: Head,
    /// The mask and the least square of each piece.
    pub pieces: Listed<PieceLine>,
    /// The rectangle of each stitch, and the pieces on its two sides.
    pub stitches: Listed<StitchLine>,
    /// The gains that are left of components, where fewer stitches are asked for.
    pub gains: Option<Listed<Gain>>,
}

/// An odd cycle of conflicts, and what its certificate tells of it.
#[derive(Debug, Drop)]
pub struct Clash {
    /// The rules, and how many features, pieces and zones there are.
    pub head: Head,
    /// The number and the least square of each piece of the cycle.
    pub cycle: Listed<PlaceLine>,
    /// For each piece of the cycle two near squares, one of it and one of the next piece.
    pub near: Listed<NearLine>,
}

/// What a layer is decomposed into.
#[derive(Drop)]
pub enum Decomposed {
    /// The conflict graph has no odd cycle: both masks.
    Masks(Painted),
    /// The conflict graph has an odd cycle, which is reported.
    Cycle(Clash),
}
