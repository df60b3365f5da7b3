//! The least neighbour on a level, and the least level edge.
ghost use Rattle.std.specs.Prelude.{◌≡◌, ⊤, ◌⊎◌, ◌+◌, ◌<◌, IfOk, MatchOption, length, slice_index};
ghost use Rattle.std.specs.List.{All, Contains};
ghost use Rattle.dpl_spec_split.specs.Cycle.{IsParent};
ghost use Rattle.dpl_crowd.specs.Crowds.{graph_in};
ghost use Rattle.dpl_crowd.specs.Walking.{AreLevelsTo, ArePast, IsLeast, IsLeastEdge, IsOn, nowhere};

use crate::levels::NOWHERE;
use crate::near::Crowd;
use dpl_base::{Edge, Id};
use std::alloc::{AllocError, Global};

/// The lesser of two numbers, if there are any.
fn lesser(least: Option<Id>, v: Id) -> Option<Id>
    ensures { MatchOption least (IsLeast (λ w. w ≡ v) result) (λ x. IsLeast (λ w. (w ≡ v) ⊎ (w ≡ x)) result) }
{
    match least {
        Some(w) if w <= v => Some(w),
        _ => Some(v),
    }
}

/// The least of these numbers from `from` on that is on the level.
fn least_on(found: &[Id], levels: &[Id], from: Id, level: Id) -> Option<Id>
    requires { All (λ v. v < length levels.now) found.now }
    ensures { IsLeast (λ w. Contains found.now w × IsOn levels.now from level w) result }
{
    let mut least = None;
    for v in found {
        if from <= *v && levels[*v as usize] == level {
            least = lesser(least, *v);
        }
    }
    least
}

/// The least neighbour of a piece from `from` on that is on the level.
fn least_beside(
    alloc: Global,
    crowd: &Crowd<'_>,
    levels: &[Id],
    v: Id,
    from: Id,
    level: Id,
) -> Result<Option<Id>, AllocError>
    requires each { length levels.now ≡ length crowd.now.parts }
    requires known { v < length levels.now }
    ensures { IfOk result (IsLeast (λ w. graph_in crowd.now v w × IsOn levels.now from level w)) }
{
    let found = crowd.neighbours(alloc, v)?;
    Ok(least_on(&found, levels, from, level))
}

/// The least neighbour of a piece that is one level lower.
pub(crate) fn parent(
    alloc: Global,
    crowd: &Crowd<'_>,
    levels: &[Id],
    depth: Id,
    v: Id,
) -> Result<Id, AllocError>
    requires levels { AreLevelsTo (graph_in crowd.now) 0 (length crowd.now.parts) depth levels.now }
    requires known { v < length levels.now }
    requires reached { slice_index levels.now v < nowhere }
    requires high { 0 < slice_index levels.now v }
    ensures parent { IfOk result (IsParent (graph_in crowd.now) 0 v) }
    ensures known { IfOk result (λ w. w < length levels.now) }
    ensures lower { IfOk result (λ w. slice_index levels.now w + 1 ≡ slice_index levels.now v) }
{
    let level = levels[v as usize] - 1;
    let Some(w) = least_beside(alloc, crowd, levels, v, 0, level)? else {
        unreachable!()
    };
    Ok(w)
}

/// Goes on from `at` over pieces up to one that isn't reached, or that has a level edge to a greater one: the least of them.
pub(crate) fn least_level_edge(
    alloc: Global,
    crowd: &Crowd<'_>,
    levels: &[Id],
    depth: Id,
    at: &mut Id,
) -> Result<Option<Edge>, AllocError>
    requires levels { AreLevelsTo (graph_in crowd.now) 0 (length crowd.now.parts) depth levels.now }
    requires past { ArePast (graph_in crowd.now) 0 at.old }
    ensures past { IfOk result (λ found. MatchOption found (ArePast (graph_in crowd.now) 0 at.new) (λ e. ⊤)) }
    ensures found { IfOk result (λ found. MatchOption found ⊤ (IsLeastEdge (graph_in crowd.now) levels.now)) }
{
    while *at < levels.len() as Id && levels[*at as usize] != NOWHERE {
        let v = *at;
        let level = levels[v as usize];
        if let Some(w) = least_beside(alloc, crowd, levels, v, v + 1, level)? {
            return Ok(Some((v, w)));
        }
        *at += 1;
    }
    Ok(None)
}
