//! Points of which no two neighbours are equal.
ghost use Rattle.std.specs.Prelude.{◌≡◌, ◌≤◌, ◌^◌, List, ◌∷◌, ◌++◌, IfOk, IsTrue, unsigned_abs};
ghost use Rattle.dpl_spec_split.specs.declared.Pt.{Pt};
ghost use Rattle.dpl_spec_split.specs.Loops.{ArePointsWithin};
ghost use Rattle.dpl_spec_elements.specs.Paths.{same_point, distinct_after, distinct};

use dpl_base::Pt;
use std::alloc::{AllocError, Global};

/// Whether two points are equal.
fn is_same(p: &Pt, q: &Pt) -> bool
    ensures { result ≡ same_point p.now q.now }
{
    p.x == q.x && p.y == q.y
}

/// Keeps a point unless it equals the last one; gives the last one.
fn keep(kept: &mut Vec<Pt>, last: Pt, point: Pt) -> Result<Pt, AllocError>
    ensures { IfOk result (λ next. (rest : List Pt) → kept.new.items ++ distinct_after next rest ≡ kept.old.items ++ distinct_after last (point ∷ rest)) }
{
    if is_same(&last, &point) {
        return Ok(last);
    }
    kept.push(point)?;
    Ok(point)
}

/// The points without those that equal the one before them.
pub fn distinct_points(alloc: Global, points: &[Pt]) -> Result<Vec<Pt>, AllocError>
    ensures { IfOk result (λ v. v.items ≡ distinct points.now) }
{
    let mut kept = Vec::new(alloc);
    let [first, rest @ ..] = points else {
        return Ok(kept);
    };
    kept.push(*first)?;
    let mut last = *first;
    for point in rest {
        last = keep(&mut kept, last, *point)?;
    }
    Ok(kept)
}
