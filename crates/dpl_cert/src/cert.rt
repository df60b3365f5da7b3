//! What a certificate says.
use crate::key::Key;
use crate::name::Name;
use dpl_base::Listed;
use dpl_spec_split::{Pt, Rect};

/// The version of a certificate, which its first line names.
#[derive(Clone, Copy, Drop)]
pub enum Version {
    /// The corner rule is the rule.
    One,
    /// The corner rule is named, and less than the rule.
    Two,
    /// The corner rule is named, and there are lines of gains.
    Three,
}

/// The rule, the overlap and the corner rule that a decomposition kept to, in database units, and what it counted.
#[derive(Clone, Copy, Debug, Drop)]
pub struct Head {
    pub rule: u32,
    pub overlap: u32,
    pub corner: u32,
    pub features: u64,
    pub pieces: u64,
    pub zones: u64,
}

/// A piece: whether it is on mask B, and its least square.
#[derive(Clone, Copy, Drop)]
pub struct PieceLine {
    pub b: bool,
    pub key: Key,
}

/// A stitch, and the pieces on both its sides.
#[derive(Clone, Copy, Drop)]
pub struct StitchLine {
    pub rect: Rect,
    pub p: u64,
    pub q: u64,
}

/// A component of pieces by its least one, and how many of its zones to other components have differing letters on their
/// two sides, and how many have equal ones.
#[derive(Clone, Copy, Drop, PartialEq, Eq)]
pub struct Gain {
    pub piece: u64,
    pub d: u64,
    pub s: u64,
}

/// What stands at a place of a cycle.
#[derive(Clone, Copy, Debug, Drop, PartialEq, Eq)]
pub enum PlaceLine {
    /// A piece, and its least square.
    Piece { piece: u64, key: Pt },
    /// The anchor of mask B, or that of mask A.
    Anchor { b: bool },
}

/// What joins a place of a cycle and the next one.
#[derive(Clone, Copy, Debug, Drop, PartialEq, Eq)]
pub enum NearLine {
    /// A square of a piece, and one of the next piece that is near it.
    Pair { from: Pt, to: Pt },
    /// A marked square of the piece that is joined to an anchor.
    Mark { at: Pt },
    /// Both are anchors.
    Anchors,
}

/// What a certificate says, by its kind.
#[derive(Drop)]
pub enum Cert {
    /// Two masks: a line for each piece, and one for each stitch; where no flip of a component is to leave fewer stitches,
    /// also a line for each component.
    Masks {
        head: Head,
        pieces: Listed<PieceLine>,
        stitches: Listed<StitchLine>,
        gains: Option<Listed<Gain>>,
    },
    /// An odd cycle of pieces and anchors, and how each is joined to the next.
    Conflict {
        head: Head,
        cycle: Listed<PlaceLine>,
        near: Listed<NearLine>,
    },
    /// The layout was refused.
    Fault {
        name: Name,
        at: u64,
    },
}
