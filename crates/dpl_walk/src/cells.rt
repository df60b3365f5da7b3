//! What one structure draws on a layer, and the copies of other structures that it places.

use dpl_base::{Listed, Pt};
use dpl_corners::Figure;

/// A loop that an element draws, in its structure's coordinates.
#[derive(Drop)]
pub struct Outline {
    /// The offset of the element, in bytes.
    pub at: usize,
    pub points: Figure,
}

/// The copies of a reference, in its structure's coordinates, which are database units.
#[derive(Clone, Copy)]
pub struct Copies {
    /// The number of the structure that is copied.
    pub target: u32,
    pub reflect: bool,
    /// Counterclockwise quarter turns, below 4.
    pub turns: u8,
    /// Where copy (0,0) stands.
    pub origin: Pt,
    /// From one column to the next.
    pub across: Pt,
    /// From one row to the next.
    pub up: Pt,
    pub columns: u32,
    pub rows: u32,
}

/// What a structure draws and places.
#[derive(Drop)]
pub struct Cell {
    pub outlines: Listed<Outline>,
    pub copies: Listed<Copies>,
}
