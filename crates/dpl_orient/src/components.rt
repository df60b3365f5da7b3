//! The least piece of each piece's component.
ghost use Rattle.std.specs.Prelude.{◌≡◌, IfOk};
ghost use Rattle.dpl_stars.specs.Stars.{IsStarList};
ghost use Rattle.dpl_orient.specs.Chart.{roots_in};
ghost use Rattle.dpl_orient.specs.Oriented.{IsEvenBelow};
ghost use Rattle.dpl_orient.specs.Rooted.{ArePiecesBelow};
ghost use Rattle.dpl_orient.specs.Roots.{AreRootsOfRows, RootsWhatSums};

use crate::chart::{Rooted, chart};
use dpl_list::Id;
use dpl_stars::{Joined, Star};
use std::alloc::{AllocError, Global};

/// The root of each piece of a chart.
fn roots_in(alloc: Global, chart: &[Rooted]) -> Result<Vec<Id>, AllocError>
    ensures { IfOk result (λ v. v.items ≡ roots_in chart.now) }
{
    chart.iter().map(|rooted| rooted.root as Id).collect(alloc)
}

/// The roots of the pieces below `n` by the rows of a summary.
fn roots_of_rows(alloc: Global, n: Id, rows: &[Star]) -> Result<Vec<Id>, AllocError>
    requires ordered { IsStarList rows.now }
    requires below { ArePiecesBelow n rows.now }
    ensures { IfOk result (λ v. AreRootsOfRows rows.now n v.items) }
{
    let chart = chart(alloc, n, rows)?;
    roots_in(alloc, &chart)
}

/// For each piece below `n` the least piece of its component, in the graph that `joined` sums up.
///
/// The error: out of memory, as for 2^32 pieces or more.
pub fn roots_below(alloc: Global, n: Id, joined: &Joined) -> Result<Vec<Id>, AllocError>
    requires { IsEvenBelow n joined.now }
    ensures { IfOk result (λ v. RootsWhatSums joined.now n v.items) }
{
    match joined {
        Joined::Stars(rows) => roots_of_rows(alloc, n, rows.items()),
        Joined::Odd => unreachable!(),
    }
}
