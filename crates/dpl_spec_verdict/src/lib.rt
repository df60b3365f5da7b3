//! What a checker says of masks and of conflicts: the first property of theirs that is broken.
#![tactic(auto)]

ghost use Rattle.std.specs.Prelude.{Option, ◌≡◌, ℕ, List};
ghost use Rattle.dpl_spec_split.specs.declared.Spacing.{Spacing};
ghost use Rattle.dpl_spec_split.specs.declared.Rect.{Rect};
ghost use Rattle.dpl_spec_split.specs.Marks.{Marks};
ghost use Rattle.dpl_cert.specs.declared.cert.Cert.{Cert};
ghost use Rattle.dpl_spec_verdict.specs.declared.Verdict.{Verdict};
ghost use Rattle.dpl_spec_verdict.specs.Masks.{IsVerdictOfMasks};
ghost use Rattle.dpl_spec_verdict.specs.Conflicts.{IsVerdictOfConflict};

use dpl_base::Pt;
use dpl_cert::Name;

/// What is said of masks or a conflict and their certificate: that they are valid, or which property is the first that is broken, in the order of the variants, with what shows it. Squares are named by their lower left corners, in database units.
#[derive(Clone, Copy, Debug, Drop, PartialEq, Eq)]
pub enum Verdict {
    /// No property is broken.
    Valid,
    /// The certificate is for this rule, this overlap and this corner rule, which version 1 doesn't name, and others were asked for.
    Rules {
        rule: u32,
        overlap: u32,
        corner: Option<u32>,
    },
    /// The certificate is of a fault, though the layout has none.
    WasFault {
        name: Name,
        at: u64,
    },
    /// The layer has these many features, pieces and zones, and the certificate counts others; of masks only features are compared.
    Counts {
        features: u64,
        pieces: u64,
        zones: u64,
    },
    /// The least square that is in just one of the layer and both masks together.
    Cover {
        at: Pt,
    },
    /// The least square that is on both masks and in no listed stitch.
    Overlap {
        at: Pt,
    },
    /// The least pair of squares of different features on mask A that are near.
    SpacingA {
        first: Pt,
        second: Pt,
    },
    /// The same on mask B.
    SpacingB {
        first: Pt,
        second: Pt,
    },
    /// The least square of the layer that is fixed to a mask and isn't on that one alone.
    Marked {
        at: Pt,
    },
    /// The first stitch that isn't on both masks, is too short, or doesn't part pieces of two letters.
    Stitch {
        index: u64,
    },
    /// The first piece whose square isn't on the mask that it names.
    Piece {
        index: u64,
    },
    /// The first line of gains that isn't the one of the layer's component at this place, by the letters of the piece lines, or whose component's flip alone leaves fewer stitches by these letters; the number of lines where some are missing, and 0 where the layer has other numbers of pieces or zones.
    Gain {
        index: u64,
    },
    /// The first place of the cycle that isn't a piece of the layer with its key, or an anchor where marks are asked for, stood before, or isn't shown by its near line to be joined to the next one.
    Cycle {
        place: u64,
    },
}

/// Masks and their certificate have at most one verdict.
pub fn one_verdict_of_masks()
    ensures { (marks : Option Marks) (spacing : Spacing) (overlap : ℕ) (layer a b : List Rect) (cert : Cert) (v w : Verdict)
        → IsVerdictOfMasks marks spacing overlap layer a b cert v → IsVerdictOfMasks marks spacing overlap layer a b cert w → v ≡ w }
{}

/// A certificate of a conflict has at most one verdict.
pub fn one_verdict_of_conflict()
    ensures { (marks : Option Marks) (spacing : Spacing) (overlap : ℕ) (layer : List Rect) (cert : Cert) (v w : Verdict)
        → IsVerdictOfConflict marks spacing overlap layer cert v → IsVerdictOfConflict marks spacing overlap layer cert w → v ≡ w }
{}
