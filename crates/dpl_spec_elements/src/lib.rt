//! What the elements of a GDSII Stream file mean, in `specs/`: reals, the motions of references, and the squares of boundaries and paths.
#![tactic(auto)]

pub use dpl_spec_split::Pt;
use thiserror::Error;

/// Which way a segment parallel to an axis goes.
#[derive(Clone, Copy, Drop)]
pub enum Heading {
    East,
    North,
    West,
    South,
}

/// A straight part of a path, from one point to the next.
#[derive(Clone, Copy, Drop)]
pub struct Segment {
    pub from: Pt,
    pub to: Pt,
}

/// What a path can be refused for, in the order in which its faults are tried.
#[derive(Clone, Copy, Debug, Drop, Error)]
pub enum PathFault {
    #[error("the path has round ends")]
    RoundPath,
    #[error("the path has an unknown type")]
    BadPathType,
    #[error("the path has an odd width")]
    OddWidth,
    #[error("a segment of the path isn't parallel to an axis")]
    SlantedPath,
    #[error("the path turns back on itself")]
    PathTurnsBack,
    #[error("the path has a negative extension")]
    NegativeExtension,
}
