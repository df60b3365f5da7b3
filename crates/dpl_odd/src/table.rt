//! The least level edge of each component.
ghost use Rattle.std.specs.Prelude.{◌≡◌, ◌<◌, IfOk, length, vec_len};
ghost use Rattle.std.specs.List.{All};
ghost use Rattle.dpl_stars.specs.Levels.{AreEdgesBelow};
ghost use Rattle.dpl_odd.specs.Tables.{AreLeastLevels};

use crate::level::lesser;
use dpl_list::Edge;
use dpl_stars::Levels;
use std::alloc::{AllocError, Global};

/// For each number the least edge between two numbers of one level, by its smaller and then by its larger number, in the component of which it is the least number.
pub fn least_level_edges(
    alloc: Global,
    levels: &Levels,
    edges: &[Edge],
) -> Result<Vec<Option<Edge>>, AllocError>
    requires as_many { vec_len levels.now.roots ≡ vec_len levels.now.levels }
    requires inside { All (λ root. root < vec_len levels.now.levels) levels.now.roots.items }
    requires below { AreEdgesBelow (vec_len levels.now.levels) edges.now }
    ensures { IfOk result (λ least. AreLeastLevels levels.now.roots.items levels.now.levels.items edges.now (length edges.now) least.items) }
{
    let mut least = vec![in alloc; None; levels.levels.len()]?;
    for edge in edges {
        let root = levels.roots[edge.0 as usize] as usize;
        least[root] = lesser(levels, least[root], *edge);
    }
    Ok(least)
}
