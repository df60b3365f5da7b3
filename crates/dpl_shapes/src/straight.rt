//! Edges parallel to an axis.
ghost use Rattle.std.specs.Prelude.{◌≡◌, ◌⊎◌, ◌↔◌, length, IsTrue, MatchBool};
ghost use Rattle.dpl_spec_split.specs.declared.Pt.{Pt};
ghost use Rattle.dpl_spec_split.specs.Loops.{IsLevelOrUpright, IsRectilinear};
ghost use Rattle.dpl_spec_elements.specs.Paths.{HasSlant};
ghost use Rattle.dpl_shapes.specs.Straight.{IsStraightBelow};

use dpl_base::Pt;

/// Whether an edge between two points is parallel to an axis.
pub fn is_level_or_upright(p: &Pt, q: &Pt) -> bool
    ensures { MatchBool result (IsLevelOrUpright p.now q.now) (IsLevelOrUpright p.now q.now → ⊥) }
{
    p.x == q.x || p.y == q.y
}

/// Whether each segment from a point to the next is parallel to an axis.
pub fn is_straight(points: &[Pt]) -> bool
    ensures { MatchBool result (IsStraightBelow points.now (length points.now)) (HasSlant points.now) }
{
    for i in 1..points.len() {
        if !is_level_or_upright(&points[i - 1], &points[i]) {
            return false;
        }
    }
    true
}

/// Whether each edge of a loop is parallel to an axis.
pub fn is_rectilinear(points: &[Pt]) -> bool
    ensures { MatchBool result (IsRectilinear points.now) (IsRectilinear points.now → ⊥) }
{
    if points.is_empty() {
        return true;
    }
    if !is_straight(points) {
        return false;
    }
    is_level_or_upright(&points[points.len() - 1], &points[0])
}
