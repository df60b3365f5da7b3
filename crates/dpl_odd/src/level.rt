//! The least edge between two numbers of one level.
ghost use Rattle.std.specs.Prelude.{◌≡◌, ◌<◌, length, vec_len, IfSome, MatchBool};
ghost use Rattle.dpl_stars.specs.Levels.{AreEdgesBelow};
ghost use Rattle.dpl_odd.specs.Paths.{IsNotAfter, IsLesser, IsLeastLevel};

use dpl_list::{Edge, Id};
use dpl_stars::Levels;

/// Whether `e` is `f` or comes before it: by root, then by the smaller and then by the larger number.
fn comes_first(roots: &[Id], e: Edge, f: Edge) -> bool
    requires e_in { e.0 < length roots.now }
    requires f_in { f.0 < length roots.now }
    ensures { MatchBool result (IsNotAfter roots.now e f) (IsNotAfter roots.now f e) }
{
    let (r, s) = (roots[e.0 as usize], roots[f.0 as usize]);
    if r != s {
        return r < s;
    }
    if e.0 != f.0 {
        return e.0 < f.0;
    }
    e.1 < f.1
}

/// The least level edge, once this edge is looked at too.
pub fn lesser(levels: &Levels, least: Option<Edge>, edge: Edge) -> Option<Edge>
    requires smaller_in { edge.0 < vec_len levels.now.levels }
    requires larger_in { edge.1 < vec_len levels.now.levels }
    requires as_many { vec_len levels.now.roots ≡ vec_len levels.now.levels }
    requires least_in { IfSome least (λ e. e.0 < vec_len levels.now.levels) }
    ensures { IsLesser levels.now.roots.items levels.now.levels.items edge least result }
{
    if levels.levels[edge.0 as usize] != levels.levels[edge.1 as usize] {
        return least;
    }
    match least {
        None => Some(edge),
        Some(other) => {
            if comes_first(&levels.roots, other, edge) {
                Some(other)
            } else {
                Some(edge)
            }
        }
    }
}

/// The least edge between two numbers of one level, by its root, then by its smaller and then by its larger number.
pub fn least_level_edge(levels: &Levels, edges: &[Edge]) -> Option<Edge>
    requires as_many { vec_len levels.now.roots ≡ vec_len levels.now.levels }
    requires below { AreEdgesBelow (vec_len levels.now.levels) edges.now }
    ensures { IsLeastLevel levels.now.roots.items levels.now.levels.items edges.now (length edges.now) result }
{
    let mut least = None;
    for edge in edges {
        least = lesser(levels, least, *edge);
    }
    least
}
