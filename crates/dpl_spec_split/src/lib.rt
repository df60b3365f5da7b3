//! The plain values of a layout, and in `specs/` what its decomposition is.
#![tactic(auto)]

ghost use Rattle.std.specs.Prelude.{◌≡◌, ℕ, ◌*◌, ◌<◌, ◌↔◌, List};
ghost use Rattle.dpl_spec_split.specs.declared.Pt.{Pt};
ghost use Rattle.dpl_spec_split.specs.declared.Rect.{Rect};
ghost use Rattle.dpl_spec_split.specs.Slabs.{IsCanonical};
ghost use Rattle.dpl_spec_split.specs.Laws.{IsOneDecomposition};
ghost use Rattle.dpl_spec_split.specs.Squares.{Covers, Near, SameSquares, d2, uniform};

/// A point. As a square it names the unit square whose lower left corner it is.
#[derive(Clone, Copy, Debug, Default, Drop, PartialEq, Eq)]
pub struct Pt {
    pub x: i64,
    pub y: i64,
}

/// The squares from column `x0` up to but not `x1`, and from row `y0` up to but not `y1`. A coordinate has 32 bits, as those of the GDSII Stream Format, Release 6, have.
#[derive(Clone, Copy, Debug, Default, Drop, PartialEq, Eq)]
pub struct Rect {
    pub x0: i32,
    pub y0: i32,
    pub x1: i32,
    pub y1: i32,
}

/// How far apart features stay on one mask, in database units: squares with columns and rows between them at least `corner` as the crow flies, all others at least `rule`. No call takes a `corner` above `rule`.
#[derive(Clone, Copy, Debug, Drop, PartialEq, Eq)]
pub struct Spacing {
    pub rule: u32,
    pub corner: u32,
}

impl Spacing {
    /// One number for all distances, in database units.
    pub fn uniform(rule: u32) -> Spacing
        ensures { result ≡ uniform rule }
    {
        Spacing { rule, corner: rule }
    }
}

/// A stitch zone of a feature.
#[derive(Clone, Copy, Debug, Drop, PartialEq, Eq)]
pub struct Zone {
    pub rect: Rect,
    pub feature: u64,
}

/// Where the corner rule is the rule, squares are near exactly where they are closer than it.
pub fn one_rule()
    ensures { (rule : ℕ) (p q : Pt) → Near (uniform rule) p q ↔ (d2 p q < rule * rule) }
{}

/// A set of squares has at most one canonical list of slabs.
pub fn one_form()
    ensures { (rs ss : List Rect) → IsCanonical rs → IsCanonical ss → SameSquares (Covers rs) (Covers ss) → rs ≡ ss }
{}

/// A layer has at most one decomposition for a spacing, an overlap and marks.
pub fn one_decomposition()
    ensures { IsOneDecomposition }
{}
